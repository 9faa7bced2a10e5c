// Units of energy and demands, in their limits.
use crate::reported::{Kva, Kwh};
use crate::up_to::UpTo;

/// Units of energy, in kWh.
pub type Units = UpTo<Kwh, 1_000_000>;

/// A maximum demand, in kVA.
pub type Demand = UpTo<Kva, 10_000>;

/// The registers of a meter: one for day units, one for peak units, one for the maximum demand.
#[derive(Clone, Copy)]
pub struct Registers {
    pub day: Units,
    pub peak: Units,
    pub demand: Demand,
}

/// Registers that show nothing.
pub const ZEROS: Registers = Registers {
    day: Units { figure: Kwh(0) },
    peak: Units { figure: Kwh(0) },
    demand: Demand { figure: Kva(0) },
};

/// One of the two registers of energy.
#[derive(Clone, Copy)]
pub enum Register {
    Day,
    Peak,
}
