// Three rows, reckoned together.
ghost use Rattle.std.specs.Prelude.{◌≡◌, [], ◌∷◌, map};
ghost use Rattle.figures.specs.View.{period_seen, register_of};
ghost use Rattle.method.specs.Meaning.{of_both};
ghost use Rattle.method.specs.Three.{three_from};
ghost use Rattle.method.specs.ReadRows.{SortsTellWhatWasRead};
ghost use Rattle.method.specs.Reckoned.{ReckonedFrom};

use crate::three_rows::ThreeRows;
use figures::reported::{Kva, Kwh};
use figures::row::Row;
use figures::units::{Demand, Register};

impl ThreeRows {
    fn of(from: u64, a: &Row, b: &Row, c: &Row) -> Option<ThreeRows>
        ensures { ReckonedFrom from (period_seen a.now ∷ period_seen b.now ∷ period_seen c.now ∷ []) result }
    {
        if !a.is_read() || !b.is_read() || !c.is_read() {
            return None;
        }
        let (p, q, r) = (a.recorded, b.recorded, c.recorded);
        let demands = p.demand.figure.0 + q.demand.figure.0 + r.demand.figure.0;
        Some(ThreeRows {
            from,
            day: Kwh(p.day.figure.0 + q.day.figure.0 + r.day.figure.0),
            peak: Kwh(p.peak.figure.0 + q.peak.figure.0 + r.peak.figure.0),
            days: a.term.days().count + b.term.days().count + c.term.days().count,
            demand: Demand {
                figure: Kva(demands.div_ceil(3)),
            },
        })
    }

    /// Rows `from` to `from` + 2, where they are billed and read.
    pub fn new(rows: &[Row], from: u64) -> Option<ThreeRows>
        ensures { ReckonedFrom from (three_from from (map period_seen rows.now)) result }
    {
        match rows.get(from as usize..)? {
            [a, b, c, ..] => ThreeRows::of(from, a, b, c),
            _ => None,
        }
    }

    /// The recorded units of a register.
    pub fn units(self, k: Register) -> Kwh
        ensures { result.0 ≡ of_both self.day.0 self.peak.0 (register_of k) }
    {
        match k {
            Register::Day => self.day,
            Register::Peak => self.peak,
        }
    }
}

/// Of three rows that accepted calls give, the sorts alone tell whether they were read.
pub fn sorts_tell_what_was_read()
    ensures { SortsTellWhatWasRead }
{}
