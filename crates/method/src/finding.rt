// Causes of corrections, and what a finding says.
ghost use Rattle.std.specs.Prelude.{◌≡◌, ◌+◌, ◌-◌, min, max};

use std::ops::Range;

/// Why rows are corrected: no reading could be had, the meter ran under or over, stopped, or was altered.
#[derive(Clone, Copy, Debug, PartialEq, Eq)]
pub enum Cause {
    Absent,
    Under,
    Over,
    Stopped,
    Altered,
}

/// What a method is asked for: to estimate a row, or to correct rows for a cause.
#[derive(Clone, Copy, Debug, PartialEq, Eq)]
pub enum Use {
    Estimates,
    Correcting(Cause),
}

/// Who found it: the consumer who reported it, or the supplier.
#[derive(Clone, Copy, Debug, PartialEq, Eq)]
pub enum Side {
    Consumer,
    Supplier,
}

/// Rows of the sheet, from the first to the last.
#[derive(Clone, Copy)]
pub struct Span {
    pub first: u64,
    pub last: u64,
}

/// What a correction rests on. It is ascertained where its dates are known: a flag alone, since span and notice stand
/// either way.
#[derive(Clone, Copy)]
pub struct Finding {
    pub cause: Cause,
    pub side: Side,
    pub notice: u64,
    pub ascertained: bool,
    pub span: Span,
}

impl Span {
    /// The places of its rows among `count` rows.
    pub fn places(self, count: usize) -> Range<usize>
        ensures start { result.start ≡ min self.first count }
        ensures end { result.end ≡ max (min self.first count) (min (self.last + 1) count) }
    {
        let count = count as u64;
        let start = self.first.min(count);
        let end = self.last.saturating_add(1).clamp(start, count);
        start as usize..end as usize
    }

    /// How many rows it has: none where the last comes before the first.
    pub fn size(self) -> u128
        ensures { result ≡ self.last + 1 - self.first }
    {
        (u128::from(self.last) + 1).saturating_sub(u128::from(self.first))
    }
}
