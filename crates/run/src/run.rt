// Calls, one after another.
ghost use Rattle.std.specs.Prelude.{◌≡◌};
ghost use Rattle.run.specs.Calls.{call_of, answer_of, asks_in, calls_in, answers_in};
ghost use Rattle.account.specs.State.{LawfulAfter};
ghost use Rattle.run.specs.Runs.{Follows, OpenedAlike};

use crate::answer::{Answer, Done};
use crate::ask::Ask;
use crate::chosen::Chosen;
use crate::request::Request;
use account::account::Account;
use tariff::tariff::Tariff;

/// Makes one call.
fn serve<T: Tariff, M: Chosen>(a: &mut Account<T>, ask: &Ask<M>) -> Answer
    ensures { LawfulAfter T.Tariff.meaning a.old a.new (call_of M.Chosen.means ask.now) (answer_of result) }
{
    match ask {
        Ask::Take { moment, span } => Ok(Done::Granted(a.take(*moment, *span)?)),
        Ask::HandBack { hold } => {
            a.hand_back(*hold)?;
            Ok(Done::HandedBack)
        }
        Ask::Bill {
            hold,
            last,
            reading,
        } => Ok(Done::Billed(a.bill(*hold, *last, *reading)?)),
        Ask::Estimate { hold, last, method } => method.estimate(a, *hold, *last),
        Ask::Correct {
            hold,
            finding,
            method,
        } => method.correct(a, *hold, *finding),
        Ask::Pay { hold, cents } => Ok(Done::Paid(a.pay(*hold, *cents)?)),
    }
}

/// Makes every call in turn, and writes its answer beside it.
pub fn serve_all<T: Tariff, M: Chosen>(a: &mut Account<T>, requests: &mut [Request<M>])
    ensures law { Follows T.Tariff.meaning a.old a.new
        (calls_in M.Chosen.means requests.old) (answers_in requests.new) }
    ensures asks { asks_in requests.new ≡ asks_in requests.old }
    ensures same { OpenedAlike T.Tariff.meaning a.old a.new }
{
    for request in requests.iter_mut() {
        request.answer = Some(serve(a, &request.ask));
    }
}
