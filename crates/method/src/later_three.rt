// The method by the later three: a span is reckoned as the three rows just after it.
ghost use Rattle.std.specs.Prelude.{◌≡◌, map};
ghost use Rattle.rules.specs.Questions.{first_no, AskedBy};
ghost use Rattle.figures.specs.View.{period_seen};
ghost use Rattle.method.specs.Making.{number_of, later_asked};
ghost use Rattle.method.specs.Made.{made_as, later_made};
ghost use Rattle.method.specs.Uses.{named_by, named_back};
ghost use Rattle.method.specs.Meaning.{missing};
ghost use Rattle.method.specs.Meant.{later_of};
ghost use Rattle.method.specs.Reckoned.{Reckoned};
ghost use Rattle.method.specs.Three.{three_from};

use crate::fault::MethodFault;
use crate::finding::{Span, Use};
use crate::method::Method;
use crate::three_rows::ThreeRows;
use crate::uses::Uses;
use figures::row::{Recorded, Row};
use figures::units::{Demand, Register};

/// No twin of the previous three: it asks other questions, serves other uses and fits another span. What they share is
/// `ThreeRows`; a trait for the two places beside a span would be longer than the lines it saves. Made of rows by `new` alone.
#[derive(Clone, Copy)]
pub struct LaterThree {
    pub(crate) three: ThreeRows,
}

impl LaterThree {
    /// Rows `from` to `from` + 2.
    pub fn new(rows: &[Row], from: u64) -> Result<LaterThree, MethodFault>
        ensures asked { AskedBy number_of (first_no (later_asked from (map period_seen rows.now))) (λ m. (m.three.from ≡ from) × Reckoned m.three (three_from from (map period_seen rows.now))) result }
        ensures made { made_as later_of result ≡ later_made from (map period_seen rows.now) }
    {
        let three = ThreeRows::new(rows, from).ok_or(MethodFault::NotRead)?;
        Ok(LaterThree { three })
    }
}

impl Method for LaterThree {
    ghost CAUSES = { named_by missing };

    const CAUSES: Uses = Uses {
        estimates: false,
        absent: true,
        under: false,
        over: false,
        stopped: true,
        altered: false,
    };

    ghost meaning = { later_of };

    ghost tied = { λ _. named_back missing };

    fn upper(&self, k: Register) -> u64 {
        self.three.units(k).0
    }

    fn lower(&self) -> u64 {
        self.three.days
    }

    fn weight(&self, _: Register, row: Recorded) -> u64 {
        row.days.count
    }

    fn demand(&self, _: Recorded) -> Demand {
        self.three.demand
    }

    fn fits(&self, _: Use, span: Span) -> bool {
        self.three.from.checked_sub(1) == Some(span.last)
    }
}
