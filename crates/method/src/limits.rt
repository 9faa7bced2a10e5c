// Figures of methods, in their limits.
ghost use Rattle.std.specs.Prelude.{◌≡◌};
ghost use Rattle.figures.specs.View.{register_of};
ghost use Rattle.method.specs.Meaning.{part};

use figures::reported::Kva;
use figures::units::Register;
use figures::up_to::UpTo;

/// A share in per cent.
pub type Percent = UpTo<u64, 100>;

/// A demand that was contracted, in kVA.
pub type Contract = UpTo<Kva, 1_000>;

/// The register's part, where the share is that of the peak.
pub fn part(peak: Percent, k: Register) -> Percent
    ensures { result.figure ≡ part (register_of k) peak.figure }
{
    match k {
        Register::Day => Percent {
            figure: 100 - peak.figure,
        },
        Register::Peak => peak,
    }
}
