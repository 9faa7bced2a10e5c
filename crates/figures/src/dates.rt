// Days, and the days of a billed period. Day 0 is 1 January 2000.
ghost use Rattle.std.specs.Prelude.{◌≡◌, ◌+◌, ◌-◌, ◌≤◌, true, false, ◌&&◌, MatchOption, nat_le};
ghost use Rattle.rules.specs.Subject.{longest};
ghost use Rattle.rules.specs.Questions.{is_term};

use crate::up_to::UpTo;

/// The most days that a billed period may have.
pub const LONGEST: u64 = 100;

/// A day of an account, up to its last.
pub type Day = UpTo<u64, 18_262>;

/// How many days a billed period has. It has a least value too, so it is no `UpTo`.
#[derive(Clone, Copy)]
pub struct Days {
    pub count: u64,
    ghost least: { 1 ≤ count },
    ghost most: { count ≤ longest },
}

/// The first and the last day of a billed period.
#[derive(Clone, Copy)]
pub struct Term {
    pub first: Day,
    pub last: Day,
    ghost ordered: { first.figure ≤ last.figure },
    ghost short: { last.figure + 1 ≤ first.figure + longest },
}

impl Term {
    /// The days from first to last, where they make a period.
    pub fn new(first: u64, last: Day) -> Option<Term>
        ensures { MatchOption result (is_term first last.figure ≡ false) (λ t. (is_term first last.figure ≡ true) × (t.first.figure ≡ first) × (t.last.figure ≡ last.figure)) }
    {
        if first > last.figure || last.figure + 1 - first > LONGEST {
            return None;
        }
        Some(Term {
            first: Day { figure: first },
            last,
        })
    }

    pub fn days(self) -> Days
        ensures { result.count ≡ self.last.figure + 1 - self.first.figure }
    {
        Days {
            count: self.last.figure + 1 - self.first.figure,
        }
    }

    pub fn has(self, day: u64) -> bool
        ensures { result ≡ (nat_le self.first.figure day && nat_le day self.last.figure) }
    {
        (self.first.figure..=self.last.figure).contains(&day)
    }
}
