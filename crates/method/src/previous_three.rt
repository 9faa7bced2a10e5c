// The method by the previous three: a span is reckoned as the three rows just before it.
ghost use Rattle.std.specs.Prelude.{◌≡◌, map};
ghost use Rattle.rules.specs.Questions.{first_no, AskedBy};
ghost use Rattle.figures.specs.View.{period_seen};
ghost use Rattle.method.specs.Making.{number_of, previous_asked};
ghost use Rattle.method.specs.Made.{made_as, previous_made};
ghost use Rattle.method.specs.Uses.{named_by, named_back};
ghost use Rattle.method.specs.Meaning.{stopping};
ghost use Rattle.method.specs.Meant.{previous_of};
ghost use Rattle.method.specs.Reckoned.{Reckoned};
ghost use Rattle.method.specs.Three.{three_from};

use crate::fault::MethodFault;
use crate::finding::{Span, Use};
use crate::method::Method;
use crate::three_rows::ThreeRows;
use crate::uses::Uses;
use figures::row::{Recorded, Row};
use figures::units::{Demand, Register};

/// Made of rows by `new` alone, so its questions were asked.
#[derive(Clone, Copy)]
pub struct PreviousThree {
    pub(crate) three: ThreeRows,
}

impl PreviousThree {
    /// Rows `from` to `from` + 2.
    pub fn new(rows: &[Row], from: u64) -> Result<PreviousThree, MethodFault>
        ensures asked { AskedBy number_of (first_no (previous_asked from (map period_seen rows.now))) (λ m. (m.three.from ≡ from) × Reckoned m.three (three_from from (map period_seen rows.now))) result }
        ensures made { made_as previous_of result ≡ previous_made from (map period_seen rows.now) }
    {
        let three = ThreeRows::new(rows, from).ok_or(MethodFault::NotRead)?;
        if three.day.0 + three.peak.0 == 0 {
            return Err(MethodFault::NoUnits);
        }
        Ok(PreviousThree { three })
    }
}

impl Method for PreviousThree {
    ghost CAUSES = { named_by stopping };

    const CAUSES: Uses = Uses {
        estimates: false,
        absent: false,
        under: false,
        over: false,
        stopped: true,
        altered: false,
    };

    ghost meaning = { previous_of };

    ghost tied = { λ _. named_back stopping };

    fn upper(&self, k: Register) -> u64 {
        self.three.units(k).0
    }

    fn lower(&self) -> u64 {
        self.three.days
    }

    fn weight(&self, _: Register, row: Recorded) -> u64 {
        row.days.count
    }

    fn demand(&self, _: Recorded) -> Demand {
        self.three.demand
    }

    fn fits(&self, _: Use, span: Span) -> bool {
        span.first.checked_sub(3) == Some(self.three.from)
    }
}
