// Why a method is not made.
ghost use Rattle.std.specs.Prelude.{◌≡◌};
ghost use Rattle.method.specs.declared.fault.MethodFault.TheVariants.{Figures};
ghost use Rattle.method.specs.Making.{number_of};

use figures::reported::OutOfLimits;

/// Each is numbered as the question that was answered no.
#[derive(Clone, Copy, Debug, PartialEq, Eq)]
pub enum MethodFault {
    /// A figure is out of its limits.
    Figures = 2,
    /// The test meter showed nothing.
    NoTest = 13,
    /// The meter showed nothing.
    NoMeter = 14,
    /// The meter is within 2.5 per cent of the test meter.
    TooClose = 15,
    /// One of the three rows is not billed, or was not read.
    NotRead = 16,
    /// The three rows have no units.
    NoUnits = 17,
}

impl MethodFault {
    /// The number of the question that was answered no.
    pub fn number(self) -> u32
        ensures { result ≡ number_of self }
    {
        self as u32
    }
}

impl From<OutOfLimits> for MethodFault {
    ghost from_gives = { λ _ r. r ≡ Figures };

    fn from(_: OutOfLimits) -> MethodFault {
        MethodFault::Figures
    }
}
