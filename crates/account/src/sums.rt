// The sums of an account: the balance, the amount due and the twelve coming instalments, small enough that none overflows.
ghost use Rattle.std.specs.Prelude.{◌*◌, ◌≤◌};
ghost use Rattle.account.specs.Bounds.{Within, Low};

pub(crate) mod bills;
pub mod coming;
pub(crate) mod moves;
pub(crate) mod spreading;

use crate::sums::coming::Coming;
use figures::money::Money;

/// Each line moves the balance by at most 10^12 cents; `lines` counts them.
#[derive(Clone, Copy)]
pub(crate) struct Sums {
    pub balance: Money,
    pub due: Money,
    pub coming: Coming,
    pub lines: u32,
    ghost few: { lines ≤ 1024 },
    ghost balance_within: { Within balance.0 lines },
    ghost due_within: { Within due.0 (1025 * lines) },
    ghost coming_low: { Low coming.places lines },
}
