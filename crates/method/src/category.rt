// The method by category: what tenants of a kind use in 30 days, for estimates.
ghost use Rattle.std.specs.Prelude.{◌≡◌};
ghost use Rattle.rules.specs.Questions.{first_no, AskedBy};
ghost use Rattle.method.specs.Making.{number_of, category_asked};
ghost use Rattle.method.specs.Made.{made_as, category_made};
ghost use Rattle.method.specs.Uses.{named_by, named_back};
ghost use Rattle.method.specs.Meaning.{estimating};
ghost use Rattle.method.specs.Meant.{category_of};

use crate::fault::MethodFault;
use crate::finding::{Span, Use};
use crate::limits::{Percent, part};
use crate::method::Method;
use crate::uses::Uses;
use figures::reported::{Kva, Kwh};
use figures::row::Recorded;
use figures::units::{Demand, Register, Units};

/// The units of 30 days, the peak's share in them, and a demand.
#[derive(Clone, Copy)]
pub struct Category {
    pub figure: Units,
    pub peak: Percent,
    pub demand: Demand,
}

impl Category {
    pub fn new(figure: Kwh, peak: u64, demand: Kva) -> Result<Category, MethodFault>
        ensures asked { AskedBy number_of (first_no (category_asked figure.0 peak demand.0)) (λ m. (m.figure.figure.0 ≡ figure.0) × (m.peak.figure ≡ peak) × (m.demand.figure.0 ≡ demand.0)) result }
        ensures made { made_as category_of result ≡ category_made figure.0 peak demand.0 }
    {
        let figure = Units::new(figure)?;
        let peak = Percent::new(peak)?;
        let demand = Demand::new(demand)?;
        Ok(Category {
            figure,
            peak,
            demand,
        })
    }
}

impl Method for Category {
    ghost CAUSES = { named_by estimating };

    const CAUSES: Uses = Uses {
        estimates: true,
        absent: false,
        under: false,
        over: false,
        stopped: false,
        altered: false,
    };

    ghost meaning = { category_of };

    ghost tied = { λ _. named_back estimating };

    fn upper(&self, k: Register) -> u64 {
        self.figure.figure.0 * part(self.peak, k).figure
    }

    fn lower(&self) -> u64 {
        3_000
    }

    fn weight(&self, _: Register, row: Recorded) -> u64 {
        row.days.count
    }

    fn demand(&self, _: Recorded) -> Demand {
        self.demand
    }

    fn fits(&self, _: Use, _: Span) -> bool {
        true
    }
}
