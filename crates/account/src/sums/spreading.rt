// What bills and corrections do to the coming instalments.
ghost use Rattle.std.specs.Prelude.{◌≡◌, ℕ, ◌+◌, ◌-◌, ◌*◌, ◌/◌, ◌<◌, ◌≤◌, map, replicate};
ghost use Rattle.rules.specs.Sharing.{brought as brought_of, instalment as instalment_of};
ghost use Rattle.rules.specs.Machine.{moved_up, spread as spread_of};
ghost use Rattle.account.specs.Bounds.{seen, none, raised, Low};

use crate::sums::bills::Spreading;
use crate::sums::coming::{Coming, Instalment};
use figures::reported::Cents;

const EMPTY: Instalment = Instalment {
    cents: Cents(0),
    count: 0,
};

impl Spreading {
    /// What the first `b` bills have brought.
    fn brought(self, b: u64) -> Cents
        requires { b ≤ 12 }
        ensures { result.0 ≡ brought_of self.cents.0 self.bills.count b }
    {
        Cents(self.cents.0 * b.min(self.bills.count) / self.bills.count)
    }

    /// What the bill after the first `b` brings.
    fn instalment(self, b: u64) -> Cents
        requires { b < 12 }
        ensures { result.0 ≡ instalment_of self.cents.0 self.bills.count (b + 1) }
    {
        Cents(self.brought(b + 1).0 - self.brought(b).0)
    }
}

impl Coming {
    pub(crate) fn new() -> Coming
        ensures { result.places ≡ replicate 12 none }
    {
        Coming {
            places: [EMPTY; 12],
        }
    }

    /// The first is taken off, the others move up, and the twelfth, which is always there, becomes empty.
    pub(crate) fn advance(&mut self)
        ensures { map seen self.new.places ≡ moved_up (map seen self.old.places) }
    {
        self.places.rotate_left(1);
        self.places[11] = EMPTY;
    }

    /// Raises the place of each bill that the undercharge is spread over by what that bill brings.
    /// How low the places are depends on the lines that `Sums` counts, so it is asked here. The places are cut by a slice:
    /// after `take` no proof knows what the places beyond hold.
    pub(crate) fn spread(&mut self, s: Spreading)
        requires { Low self.old.places 1024 }
        ensures { map seen self.new.places ≡ spread_of s.cents.0 s.bills.count 1 (map seen self.old.places) }
    {
        let reached = s.bills.count as usize;
        for (b, place) in self.places[..reached].iter_mut().enumerate() {
            place.raise(s.instalment(b as u64));
        }
    }
}

impl Instalment {
    /// Raised by a part of one more correction.
    fn raise(&mut self, part: Cents)
        requires fits { self.old.cents.0 + part.0 ≤ 4000000000000000 }
        requires counted { self.old.count ≤ 1024 }
        ensures { self.new ≡ raised self.old part.0 }
    {
        self.cents.0 += part.0;
        self.count += 1;
    }
}
