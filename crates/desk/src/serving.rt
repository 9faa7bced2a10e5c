// What is done for one line.
ghost use Rattle.std.specs.Prelude.{Ok};
ghost use Rattle.rules.specs.Subject.{take as taking, hand_back as handing_back, bill as billing, estimate as estimating, correct as correcting, pay as paying};
ghost use Rattle.rules.specs.Machine.{periods_of};
ghost use Rattle.figures.specs.View.{reading_of};
ghost use Rattle.method.specs.Made.{made_as};
ghost use Rattle.method.specs.Uses.{finding_of};
ghost use Rattle.account.specs.State.{state_of};
ghost use Rattle.events.specs.Events.{event_of};
ghost use Rattle.desk.specs.Calls.{method_of, call_by, call_of, line_call};
ghost use Rattle.desk.specs.Called.{Called};
ghost use Rattle.desk.specs.Lawful.{LawfulLine};

use crate::fault::Fault;
use account::account::Account;
use events::event::{Basis, Event};
use events::read_event;
use figures::reported::{Cents, Reading};
use method::category::Category;
use method::contract_demand::ContractDemand;
use method::fault::MethodFault;
use method::finding::Finding;
use method::later_three::LaterThree;
use method::method::Method;
use method::previous_three::PreviousThree;
use method::test_meter::TestMeter;
use tariff::tariff::Tariff;

/// Puts a take to the account: the value is the hold.
fn take<T: Tariff>(account: &mut Account<T>, moment: u64, span: u64) -> Result<i64, Fault>
    ensures after { Called T.Tariff.meaning account.old account.new (Ok (taking moment span)) result }
{
    Ok(i64::from(account.take(moment, span)?))
}

/// Puts a hand back to the account: the value is 0.
fn hand_back<T: Tariff>(account: &mut Account<T>, hold: u64) -> Result<i64, Fault>
    ensures after { Called T.Tariff.meaning account.old account.new (Ok (handing_back hold)) result }
{
    account.hand_back(hold)?;
    Ok(0)
}

/// Puts a bill to the account: the value is the cents billed.
fn bill<T: Tariff>(
    account: &mut Account<T>,
    hold: u64,
    last: u64,
    reading: Reading,
) -> Result<i64, Fault>
    ensures after { Called T.Tariff.meaning account.old account.new (Ok (billing hold last (reading_of reading))) result }
{
    Ok(account.bill(hold, last, reading)?.figure.0 as i64)
}

/// Puts a payment to the account: the value is the cents paid.
fn pay<T: Tariff>(account: &mut Account<T>, hold: u64, cents: Cents) -> Result<i64, Fault>
    ensures after { Called T.Tariff.meaning account.old account.new (Ok (paying hold cents.0)) result }
{
    Ok(account.pay(hold, cents)?.cents.0 as i64)
}

/// Puts an estimate to the account by the method that was made for it, if one was: the value is the cents estimated.
fn estimate_by<T: Tariff, M: Method + Drop>(
    account: &mut Account<T>,
    hold: u64,
    last: u64,
    made: Result<M, MethodFault>,
) -> Result<i64, Fault>
    ensures after { Called T.Tariff.meaning account.old account.new (call_by (estimating hold last) (made_as M.Method.meaning made)) result }
{
    let method = made?;
    Ok(account.estimate(hold, last, &method)?.figure.0 as i64)
}

/// Puts a correction to the account by the method that was made for it, if one was: the value is what it comes to.
fn correct_by<T: Tariff, M: Method + Drop>(
    account: &mut Account<T>,
    hold: u64,
    finding: Finding,
    made: Result<M, MethodFault>,
) -> Result<i64, Fault>
    ensures after { Called T.Tariff.meaning account.old account.new (call_by (correcting hold (finding_of finding)) (made_as M.Method.meaning made)) result }
{
    let method = made?;
    Ok(account.correct(hold, finding, &method)?.0)
}

/// Makes the method that a correction names, and then its call.
#[tactic(auto, using(crate::proofs::Rows::seen_periods, std::proofs::lemmas::Grind::common_steps))]
fn correct<T: Tariff>(
    account: &mut Account<T>,
    hold: u64,
    finding: Finding,
    basis: Basis,
) -> Result<i64, Fault>
    ensures after { Called T.Tariff.meaning account.old account.new (call_by (correcting hold (finding_of finding)) (method_of (periods_of (state_of account.old)) basis)) result }
{
    match basis {
        Basis::TestMeter { shown, tested } => {
            correct_by(account, hold, finding, TestMeter::new(shown, tested))
        }
        Basis::PreviousThree { from } => {
            let made = PreviousThree::new(account.rows(), from);
            correct_by(account, hold, finding, made)
        }
        Basis::LaterThree { from } => {
            let made = LaterThree::new(account.rows(), from);
            correct_by(account, hold, finding, made)
        }
        Basis::ContractDemand {
            kva,
            utilization,
            power,
            load,
            peak,
        } => {
            let made = ContractDemand::new(kva, utilization, power, load, peak);
            correct_by(account, hold, finding, made)
        }
    }
}

/// Makes the call that an event asks for.
fn call<T: Tariff>(account: &mut Account<T>, event: Event) -> Result<i64, Fault>
    ensures after { Called T.Tariff.meaning account.old account.new (call_of (periods_of (state_of account.old)) event) result }
{
    match event {
        Event::Take { moment, span } => take(account, moment, span),
        Event::HandBack { hold } => hand_back(account, hold),
        Event::Bill {
            hold,
            last,
            reading,
        } => bill(account, hold, last, reading),
        Event::Estimate {
            hold,
            last,
            figure,
            peak,
            demand,
        } => estimate_by(account, hold, last, Category::new(figure, peak, demand)),
        Event::Correct {
            hold,
            finding,
            basis,
        } => correct(account, hold, finding, basis),
        Event::Pay { hold, cents } => pay(account, hold, cents),
    }
}

/// Reads a line and serves its event; a refusal names the layer that gave it.
pub fn serve<T: Tariff>(account: &mut Account<T>, line: &[u8]) -> Result<i64, Fault>
    ensures after { Called T.Tariff.meaning account.old account.new (line_call (periods_of (state_of account.old)) (event_of line.now)) result }
    ensures law { LawfulLine T.Tariff.meaning account.old account.new line.now result }
{
    let event = read_event(line)?;
    call(account, event)
}
