// Readings made into registers.
ghost use Rattle.std.specs.Prelude.{◌≡◌, true, false, Ok, Err};
ghost use Rattle.rules.specs.Questions.{is_reading};
ghost use Rattle.figures.specs.View.{regs, reading_of};

use crate::reported::{OutOfLimits, Reading};
use crate::units::{Demand, Registers, Units};

/// The registers that a reading gives, where each figure is in its limits.
impl TryFrom<Reading> for Registers {
    type Error = OutOfLimits;

    ghost try_from_gives = { λ reading made. elim made [ Ok g ↦ (is_reading (reading_of reading) ≡ true) × (regs g ≡ reading_of reading) | Err _ ↦ is_reading (reading_of reading) ≡ false ] };

    fn try_from(reading: Reading) -> Result<Registers, OutOfLimits> {
        let day = Units::new(reading.day)?;
        let peak = Units::new(reading.peak)?;
        let demand = Demand::new(reading.demand)?;
        Ok(Registers { day, peak, demand })
    }
}
