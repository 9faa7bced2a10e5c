// By what an account estimates and corrects: one method, or any of the five.
ghost use Rattle.rules.specs.Subject.{Method as Meaning, estimate as estimating, correct as correcting};
ghost use Rattle.method.specs.Uses.{finding_of};
ghost use Rattle.run.specs.Any.{any_of};
ghost use Rattle.run.specs.Calls.{answer_of};
ghost use Rattle.account.specs.State.{LawfulAfter};

use crate::answer::{Answer, Done};
use crate::any_method::AnyMethod;
use account::account::Account;
use method::finding::Finding;
use method::method::Method;
use tariff::tariff::Tariff;

/// A method, or a choice of one.
pub trait Chosen {
    ghost means: { Self → Meaning };

    fn estimate<T: Tariff>(&self, account: &mut Account<T>, hold: u64, last: u64) -> Answer
        ensures { LawfulAfter T.Tariff.meaning account.old account.new
            (estimating hold last (means self.now)) (answer_of result) };

    fn correct<T: Tariff>(&self, account: &mut Account<T>, hold: u64, finding: Finding) -> Answer
        ensures { LawfulAfter T.Tariff.meaning account.old account.new
            (correcting hold (finding_of finding) (means self.now)) (answer_of result) };
}

impl<M: Method> Chosen for M {
    ghost means = { M.Method.meaning };

    fn estimate<T: Tariff>(&self, account: &mut Account<T>, hold: u64, last: u64) -> Answer {
        Ok(Done::Billed(account.estimate(hold, last, self)?))
    }

    fn correct<T: Tariff>(&self, account: &mut Account<T>, hold: u64, finding: Finding) -> Answer {
        Ok(Done::Corrected(account.correct(hold, finding, self)?))
    }
}

impl Chosen for AnyMethod {
    ghost means = { any_of };

    fn estimate<T: Tariff>(&self, account: &mut Account<T>, hold: u64, last: u64) -> Answer {
        match self {
            AnyMethod::Category(m) => m.estimate(account, hold, last),
            AnyMethod::TestMeter(m) => m.estimate(account, hold, last),
            AnyMethod::PreviousThree(m) => m.estimate(account, hold, last),
            AnyMethod::LaterThree(m) => m.estimate(account, hold, last),
            AnyMethod::ContractDemand(m) => m.estimate(account, hold, last),
        }
    }

    fn correct<T: Tariff>(&self, account: &mut Account<T>, hold: u64, finding: Finding) -> Answer {
        match self {
            AnyMethod::Category(m) => m.correct(account, hold, finding),
            AnyMethod::TestMeter(m) => m.correct(account, hold, finding),
            AnyMethod::PreviousThree(m) => m.correct(account, hold, finding),
            AnyMethod::LaterThree(m) => m.correct(account, hold, finding),
            AnyMethod::ContractDemand(m) => m.correct(account, hold, finding),
        }
    }
}
