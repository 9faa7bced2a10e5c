// The letters of fields, read and written, and the field that holds nothing but 0.
ghost use Rattle.std.specs.Prelude.{◌≡◌};
ghost use Rattle.events.specs.Letters.{only, cause_of, side_of, known_of, method_of, unused_of};
ghost use Rattle.events.specs.Carried.{cause_letter, side_letter, known_letter};

use crate::field::FromField;
use method::finding::{Cause, Side};

/// The name of a method in a correction's line.
#[derive(Clone, Copy)]
pub(crate) enum MethodName {
    TestMeter,
    PreviousThree,
    LaterThree,
    ContractDemand,
}

/// A field that the named method does not use.
#[derive(Clone, Copy)]
pub(crate) struct Unused;

/// The byte of a field of one byte.
fn letter(field: &[u8]) -> Option<u8>
    ensures { result ≡ only field.now }
{
    match field {
        [byte] => Some(*byte),
        _ => None,
    }
}

impl FromField for Cause {
    ghost held = { cause_of };

    fn from_field(field: &[u8]) -> Option<Cause> {
        Some(match letter(field)? {
            b'A' => Cause::Absent,
            b'U' => Cause::Under,
            b'O' => Cause::Over,
            b'S' => Cause::Stopped,
            b'X' => Cause::Altered,
            _ => return None,
        })
    }
}

impl FromField for Side {
    ghost held = { side_of };

    fn from_field(field: &[u8]) -> Option<Side> {
        Some(match letter(field)? {
            b'c' => Side::Consumer,
            b's' => Side::Supplier,
            _ => return None,
        })
    }
}

/// Whether the dates are known: `y` or `n`.
impl FromField for bool {
    ghost held = { known_of };

    fn from_field(field: &[u8]) -> Option<bool> {
        Some(match letter(field)? {
            b'y' => true,
            b'n' => false,
            _ => return None,
        })
    }
}

impl FromField for MethodName {
    ghost held = { method_of };

    fn from_field(field: &[u8]) -> Option<MethodName> {
        Some(match letter(field)? {
            b'M' => MethodName::TestMeter,
            b'P' => MethodName::PreviousThree,
            b'L' => MethodName::LaterThree,
            b'D' => MethodName::ContractDemand,
            _ => return None,
        })
    }
}

impl FromField for Unused {
    ghost held = { unused_of };

    fn from_field(field: &[u8]) -> Option<Unused> {
        Some(match letter(field)? {
            b'0' => Unused,
            _ => return None,
        })
    }
}

/// The letter of a cause.
pub(crate) fn cause_letter(cause: Cause) -> u8
    ensures { result ≡ cause_letter cause }
{
    match cause {
        Cause::Absent => b'A',
        Cause::Under => b'U',
        Cause::Over => b'O',
        Cause::Stopped => b'S',
        Cause::Altered => b'X',
    }
}

/// The letter of who found it.
pub(crate) fn side_letter(side: Side) -> u8
    ensures { result ≡ side_letter side }
{
    match side {
        Side::Consumer => b'c',
        Side::Supplier => b's',
    }
}

/// The letter of whether the dates are known.
pub(crate) fn known_letter(known: bool) -> u8
    ensures { result ≡ known_letter known }
{
    if known { b'y' } else { b'n' }
}
