// Three rows of the sheet, as a method takes them together.
ghost use Rattle.std.specs.Prelude.{◌≤◌};

use figures::reported::Kwh;
use figures::units::Demand;

/// Their first row's number, their recorded units of each register, their days, and the average of their recorded demands.
#[derive(Clone, Copy)]
pub struct ThreeRows {
    pub(crate) from: u64,
    pub(crate) day: Kwh,
    pub(crate) peak: Kwh,
    pub(crate) days: u64,
    pub(crate) demand: Demand,
    ghost day_most: { day.0 ≤ 3000000 },
    ghost peak_most: { peak.0 ≤ 3000000 },
    ghost days_least: { 1 ≤ days },
    ghost days_most: { days ≤ 300 },
}
