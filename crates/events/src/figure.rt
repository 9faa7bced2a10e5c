// Figures in fields, each in its unit.
ghost use Rattle.std.specs.Prelude.{◌≡◌};
ghost use Rattle.events.specs.Figures.{figure_of, kwh_of, kva_of, cents_of};

use crate::field::FromField;
use figures::reported::{Cents, Kva, Kwh};

impl FromField for u64 {
    ghost held = { figure_of };

    #[inline(always)]
    fn from_field(field: &[u8]) -> Option<u64> {
        let mut number = 0;
        for (place, byte) in field.iter().enumerate() {
            if place == 13 || !byte.is_ascii_digit() {
                return None;
            }
            number = number * 10 + u64::from(*byte - b'0');
        }
        match field {
            [] | [b'0', _, ..] => None,
            _ => Some(number),
        }
    }
}

impl FromField for Kwh {
    ghost held = { kwh_of };

    #[inline(always)]
    fn from_field(field: &[u8]) -> Option<Kwh> {
        Some(Kwh(u64::from_field(field)?))
    }
}

impl FromField for Kva {
    ghost held = { kva_of };

    #[inline(always)]
    fn from_field(field: &[u8]) -> Option<Kva> {
        Some(Kva(u64::from_field(field)?))
    }
}

impl FromField for Cents {
    ghost held = { cents_of };

    #[inline(always)]
    fn from_field(field: &[u8]) -> Option<Cents> {
        Some(Cents(u64::from_field(field)?))
    }
}
