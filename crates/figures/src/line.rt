// A line of the journal.
ghost use Rattle.std.specs.Prelude.{◌≡◌, pos, neg_ℤ, ◌≤ℤ◌, None};

use crate::money::Money;

#[derive(Clone, Copy)]
pub enum Letter {
    Bill,
    Correction,
    Payment,
}

/// What a bill, the correction of one row or a payment moved the balance by: at most 10^12 cents either way. A payment names no
/// row, and a line that names none never raises the balance. A row's number is a `u8`, since a sheet has at most 120: a line is
/// then 16 bytes, and a journal of 1,024 lines costs less to set up.
#[derive(Clone, Copy)]
pub struct Line {
    pub hold: u32,
    pub letter: Letter,
    pub row: Option<u8>,
    pub cents: Money,
    ghost low: { neg_ℤ (pos 1000000000000) ≤ℤ cents.0 },
    ghost high: { cents.0 ≤ℤ pos 1000000000000 },
    ghost paid: { row ≡ None → cents.0 ≤ℤ pos 0 },
}

/// What stands in a journal's memory before a line is written there: zeros, which a memory is filled with the fastest.
pub const EMPTY: Line = Line {
    hold: 0,
    letter: Letter::Bill,
    row: None,
    cents: Money(0),
};
