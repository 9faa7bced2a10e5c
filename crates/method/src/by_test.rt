// The method by test meter: how it is made, and what it means.
ghost use Rattle.std.specs.Prelude.{◌≡◌};
ghost use Rattle.rules.specs.Questions.{first_no, AskedBy};
ghost use Rattle.method.specs.Making.{number_of, test_asked};
ghost use Rattle.method.specs.Made.{made_as, test_made};
ghost use Rattle.method.specs.Meant.{test_of};
ghost use Rattle.method.specs.Uses.{named_by, named_back};
ghost use Rattle.method.specs.Meaning.{measured};

use crate::fault::MethodFault;
use crate::finding::{Cause, Span, Use};
use crate::method::Method;
use crate::test_meter::TestMeter;
use crate::uses::Uses;
use figures::reported::Kwh;
use figures::row::Recorded;
use figures::units::{Demand, Register, Units};

impl TestMeter {
    /// The meter has to be more than 2.5 per cent off, or there is nothing to correct.
    pub fn new(shown: Kwh, tested: Kwh) -> Result<TestMeter, MethodFault>
        ensures asked { AskedBy number_of (first_no (test_asked shown.0 tested.0)) (λ m. (m.shown.figure.0 ≡ shown.0) × (m.tested.figure.0 ≡ tested.0)) result }
        ensures made { made_as test_of result ≡ test_made shown.0 tested.0 }
    {
        let shown = Units::new(shown)?;
        let tested = Units::new(tested)?;
        if tested.figure.0 == 0 {
            return Err(MethodFault::NoTest);
        }
        if shown.figure.0 == 0 {
            return Err(MethodFault::NoMeter);
        }
        if 40 * shown.figure.0.abs_diff(tested.figure.0) <= tested.figure.0 {
            return Err(MethodFault::TooClose);
        }
        Ok(TestMeter { shown, tested })
    }
}

impl Method for TestMeter {
    ghost CAUSES = { named_by measured };

    const CAUSES: Uses = Uses {
        estimates: false,
        absent: false,
        under: true,
        over: true,
        stopped: false,
        altered: false,
    };

    ghost meaning = { test_of };

    ghost tied = { λ _. named_back measured };

    fn upper(&self, _: Register) -> u64 {
        self.tested.figure.0
    }

    fn lower(&self) -> u64 {
        self.shown.figure.0
    }

    fn weight(&self, k: Register, row: Recorded) -> u64 {
        match k {
            Register::Day => row.registers.day.figure.0,
            Register::Peak => row.registers.peak.figure.0,
        }
    }

    fn demand(&self, row: Recorded) -> Demand {
        row.registers.demand
    }

    fn fits(&self, u: Use, _: Span) -> bool {
        match u {
            Use::Correcting(Cause::Under) => self.shown.figure.0 < self.tested.figure.0,
            Use::Correcting(Cause::Over) => self.shown.figure.0 > self.tested.figure.0,
            _ => false,
        }
    }
}
