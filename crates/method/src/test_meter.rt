// The test meter: what a meter showed, and what a test meter beside it did.
ghost use Rattle.std.specs.Prelude.{◌≡◌, ◌≤◌, true};
ghost use Rattle.method.specs.Making.{is_off};

use figures::units::Units;

/// Both showed something and the meter is off: what the making asks holds of every test meter, however it was had.
#[derive(Clone, Copy)]
pub struct TestMeter {
    pub shown: Units,
    pub tested: Units,
    ghost turned: { 1 ≤ shown.figure.0 },
    ghost tried: { 1 ≤ tested.figure.0 },
    ghost off: { is_off shown.figure.0 tested.figure.0 ≡ true },
}
