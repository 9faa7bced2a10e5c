// What a correction spreads, and over how many bills.
ghost use Rattle.std.specs.Prelude.{◌≤◌};

use figures::reported::Cents;

/// How many bills an undercharge is spread over: one to twelve. It has a least value too, so it is no `UpTo`.
#[derive(Clone, Copy)]
pub(crate) struct Bills {
    pub count: u64,
    ghost least: { 1 ≤ count },
    ghost most: { count ≤ 12 },
}

/// An undercharge that is spread over bills: at most 10^13 cents, since no correction rewrites more than twelve rows.
#[derive(Clone, Copy)]
pub(crate) struct Spreading {
    pub cents: Cents,
    pub bills: Bills,
    ghost modest: { cents.0 ≤ 10000000000000 },
}
