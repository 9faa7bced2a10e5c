// The questions that several calls put, each with what a yes gives. That is a fact about the account as it then stands, so it
// is said by each question that gives it and kept in no type.
ghost use Rattle.std.specs.Prelude.{◌≡◌, ℕ, ◌+◌, ◌<◌, ◌≤◌, length, nat_le, nat_lt};
ghost use Rattle.rules.specs.Laid.{next_day};
ghost use Rattle.rules.specs.Questions.{stands, is_term, sheet_room, journal_room};
ghost use Rattle.rules.specs.Machine.{view, periods_of};
ghost use Rattle.account.specs.declared.refusal.Refusal.TheVariants.{NoHold, SheetFull, Period, JournalFull};
ghost use Rattle.account.specs.State.{state_of, opening_of};
ghost use Rattle.account.specs.Answers.{Says};

use crate::account::Account;
use crate::refusal::Refusal;
use figures::dates::{Day, Term};

impl<'a, T> Account<'a, T> {
    /// The hold's number, where the named hold stands.
    pub(crate) fn held(&self, hold: u64) -> Result<u32, Refusal>
        ensures { Says (stands (view (state_of self.now)) hold) (λ n. n ≡ hold) NoHold result }
    {
        match self.holding {
            Some(h) if u64::from(h.number) == hold => Ok(h.number),
            _ => Err(Refusal::NoHold),
        }
    }

    /// The day on which the next row begins.
    pub(crate) fn next_day(&self) -> u64
        ensures value { result ≡ next_day self.now.opening.figure (periods_of (state_of self.now)) }
    {
        match self.sheet.records().last() {
            Some(row) => row.term.last.figure + 1,
            None => self.opening.figure,
        }
    }

    /// Whether the sheet has a place.
    pub(crate) fn sheet_takes(&self) -> Result<(), Refusal>
        ensures { Says (nat_lt (length (periods_of (state_of self.now))) (sheet_room (opening_of self.now))) (λ _. self.now.sheet.filled < self.now.sheet.limit) SheetFull result }
    {
        if self.sheet.has_room() {
            Ok(())
        } else {
            Err(Refusal::SheetFull)
        }
    }

    /// The days of the next row, where it would end on `last`.
    pub(crate) fn next_term(&self, last: Day) -> Result<Term, Refusal>
        ensures { Says (is_term (next_day self.now.opening.figure (periods_of (state_of self.now))) last.figure) (λ t. (t.first.figure ≡ next_day self.now.opening.figure (periods_of (state_of self.now))) × (t.last.figure ≡ last.figure)) Period result }
    {
        Term::new(self.next_day(), last).ok_or(Refusal::Period)
    }

    /// Whether the journal has places for n lines.
    pub(crate) fn journal_takes(&self, n: usize) -> Result<(), Refusal>
        ensures { Says (nat_le (length (state_of self.now).lines + n) (journal_room (opening_of self.now))) (λ _. self.now.journal.filled + n ≤ self.now.journal.limit) JournalFull result }
    {
        if n <= self.journal.free() {
            Ok(())
        } else {
            Err(Refusal::JournalFull)
        }
    }
}
