// One billed period: a row of the sheet. Each part keeps its own limits, so no row is outside them, and a row has no
// registers that its sort forbids.
ghost use Rattle.std.specs.Prelude.{◌≡◌, true};
ghost use Rattle.rules.specs.Subject.{zeros, no_energy, is_unmetered};
ghost use Rattle.figures.specs.Parts.{regs, sort_of};

use crate::dates::{Day, Days, Term};
use crate::money::Charge;
use crate::reported::Cents;
use crate::units::{Registers, ZEROS};

/// Read, unmetered and estimated, or unmetered without energy.
#[derive(Clone, Copy, Debug, PartialEq, Eq)]
pub enum Sort {
    Read,
    Estimated,
    NoEnergy,
}

/// The recorded registers are what the meter showed: zeros where it was not read. The standing ones are charged: zeros where
/// the row is without energy.
#[derive(Clone, Copy)]
pub struct Row {
    pub term: Term,
    pub sort: Sort,
    pub recorded: Registers,
    pub standing: Registers,
    pub charge: Charge,
    ghost nothing_recorded: { is_unmetered (sort_of sort) ≡ true → regs recorded ≡ zeros },
    ghost nothing_stands: { sort_of sort ≡ no_energy → regs standing ≡ zeros },
}

/// What of a row a method may weigh.
#[derive(Clone, Copy)]
pub struct Recorded {
    pub days: Days,
    pub registers: Registers,
}

/// What stands in a sheet's memory before a row is written there.
pub const BLANK: Row = Row {
    term: Term {
        first: Day { figure: 0 },
        last: Day { figure: 0 },
    },
    sort: Sort::Read,
    recorded: ZEROS,
    standing: ZEROS,
    charge: Charge { figure: Cents(0) },
};

impl Row {
    ghost use Rattle.rules.specs.Subject.{days, is_read};
    ghost use Rattle.figures.specs.View.{period_seen};

    pub fn is_read(&self) -> bool
        ensures { result ≡ is_read (sort_of self.now.sort) }
    {
        self.sort == Sort::Read
    }

    /// The days and the recorded registers.
    pub fn metered(&self) -> Recorded
        ensures days { result.days.count ≡ days (period_seen self.now) }
        ensures registers { regs result.registers ≡ regs self.now.recorded }
    {
        Recorded {
            days: self.term.days(),
            registers: self.recorded,
        }
    }
}
