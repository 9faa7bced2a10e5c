// Whole runs, with what they are answered and leave. The figures were worked out by hand from the rules.
use super::keep;
use crate::answer::Done;
use crate::any_method::AnyMethod;
use crate::ask::Ask;
use crate::request::Request;
use account::refusal::Refusal;
use figures::line::EMPTY;
use figures::reported::{Cents, Kva, Kwh, Reading};
use figures::row::{BLANK, Sort};
use method::category::Category;
use method::contract_demand::ContractDemand;
use method::finding::{Cause, Finding, Side, Span};
use method::later_three::LaterThree;
use method::test_meter::TestMeter;
use std::process::Abort;
use tariff::hotel::{h1, h2};

const TAKE: Ask<AnyMethod> = Ask::Take {
    moment: 0,
    span: 10,
};

fn bill(last: u64) -> Ask<AnyMethod> {
    let reading = Reading {
        day: Kwh(100),
        peak: Kwh(50),
        demand: Kva(3),
    };
    Ask::Bill {
        hold: 1,
        last,
        reading,
    }
}

fn correct(cause: Cause, span: Span, method: AnyMethod) -> Ask<AnyMethod> {
    let finding = Finding {
        cause,
        side: Side::Supplier,
        notice: 5,
        ascertained: true,
        span,
    };
    Ask::Correct {
        hold: 1,
        finding,
        method,
    }
}

/// 300 units in 30 days, a fifth of them at the peak, and 5 kVA.
fn category(rt: &impl Abort) -> Category {
    Category::new(Kwh(300), 20, Kva(5))
        .ok()
        .expect(rt, "no category")
}

/// Asserts that each request has its answer: the value, or the refusal.
fn assert_answers<M>(rt: &impl Abort, requests: &[Request<M>], answers: &[Result<i64, Refusal>]) {
    assert_eq!(rt; requests.len(), answers.len());
    for (i, request) in requests.iter().enumerate() {
        let answer = request.answer.map(|a| a.map(Done::value));
        assert_eq!(rt; answer, Some(answers[i]), "request {i}");
    }
}

/// A row is billed without a reading, and corrected by the rows after it; a meter that ran slow is
/// tested, and three rows of an altered one are worked out from the contract demand.
#[test]
fn methods_of_four_types(rt: HostRuntime) {
    let estimate = Ask::Estimate {
        hold: 1,
        last: 59,
        method: AnyMethod::Category(category(&rt)),
    };
    let mut sheet = [BLANK; 6];
    let mut journal = [EMPTY; 12];
    let mut billed = [
        Request::new(TAKE),
        Request::new(bill(29)),
        Request::new(estimate),
        Request::new(bill(89)),
        Request::new(bill(119)),
        Request::new(bill(149)),
    ];
    let kept = keep(h2(), 0, &mut sheet, &mut journal, &mut billed)
        .ok()
        .expect(&rt, "refused");
    assert_eq!(rt; kept.rows, 5);
    assert_eq!(rt; kept.lines, 5);
    assert_eq!(rt; sheet[1].sort, Sort::Estimated);
    assert_eq!(rt; sheet[1].standing.day.figure.0, 240);

    // the rows after the estimated one, as the run left them
    let later = LaterThree::new(&sheet, 2).ok().expect(&rt, "no rows");
    let tested = TestMeter::new(Kwh(90), Kwh(100))
        .ok()
        .expect(&rt, "no test");
    let contract = ContractDemand::new(Kva(10), 50, 90, 40, 0)
        .ok()
        .expect(&rt, "no contract");
    let mut requests = [
        Request::new(TAKE),
        Request::new(bill(29)),
        Request::new(estimate),
        Request::new(Ask::Take {
            moment: 9,
            span: 10,
        }),
        Request::new(bill(89)),
        Request::new(bill(119)),
        Request::new(bill(149)),
        Request::new(correct(
            Cause::Absent,
            Span { first: 1, last: 1 },
            AnyMethod::LaterThree(later),
        )),
        Request::new(correct(
            Cause::Under,
            Span { first: 0, last: 0 },
            AnyMethod::TestMeter(tested),
        )),
        Request::new(correct(
            Cause::Altered,
            Span { first: 2, last: 4 },
            AnyMethod::ContractDemand(contract),
        )),
        Request::new(Ask::Pay {
            hold: 1,
            cents: Cents(7),
        }),
    ];
    let kept = keep(h2(), 0, &mut sheet, &mut journal, &mut requests)
        .ok()
        .expect(&rt, "refused");
    assert_answers(
        &rt,
        &requests,
        &[
            Ok(1),
            Ok(399_500),
            Ok(669_000),
            Err(Refusal::Held),
            Ok(399_500),
            Ok(399_500),
            Ok(399_500),
            Ok(-269_500),
            Ok(18_080),
            Ok(4_184_940),
            Ok(7),
        ],
    );
    assert_eq!(rt; kept.granted, 1);
    assert_eq!(rt; kept.hold.map(|h| (h.number, h.until)), Some((1, 10)));
    assert_eq!(rt; kept.balance.0, 6_200_513);
    assert_eq!(rt; kept.due.0, 1_997_493);
    assert_eq!(rt; kept.coming.places[0].cents.0, 4_203_020);
    assert_eq!(rt; kept.coming.places[0].count, 2);
    assert_eq!(rt; kept.rows, 5);
    assert_eq!(rt; kept.lines, 11);
    assert_eq!(rt; sheet[0].standing.day.figure.0, 111);
    assert_eq!(rt; sheet[1].standing.day.figure.0, 100);
    assert_eq!(rt; sheet[2].recorded.day.figure.0, 100);
    assert_eq!(rt; sheet[2].standing.day.figure.0, 1_296);
    assert_eq!(rt; journal[5].row, Some(1));
    assert_eq!(rt; journal[10].cents.0, -7);
}

fn estimate(last: u64, method: Category) -> Request<Category> {
    Request::new(Ask::Estimate {
        hold: 1,
        last,
        method,
    })
}

/// A list that needs one method only is a list of its type.
#[test]
fn one_method(rt: HostRuntime) {
    let category = category(&rt);
    let mut sheet = [BLANK; 1];
    let mut journal = [EMPTY; 2];
    let mut requests = [
        Request::new(Ask::Take {
            moment: 0,
            span: 10,
        }),
        estimate(29, category),
        estimate(59, category),
        Request::new(Ask::HandBack { hold: 1 }),
        estimate(59, category),
    ];
    let tariff = h1(Kva(10)).ok().expect(&rt, "no tariff");
    let kept = keep(tariff, 0, &mut sheet, &mut journal, &mut requests)
        .ok()
        .expect(&rt, "refused");
    assert_answers(
        &rt,
        &requests,
        &[
            Ok(1),
            Ok(345_000),
            Err(Refusal::SheetFull),
            Ok(0),
            Err(Refusal::NoHold),
        ],
    );
    assert_eq!(rt; kept.granted, 1);
    assert_eq!(rt; kept.hold.is_none(), true);
    assert_eq!(rt; kept.balance.0, 345_000);
    assert_eq!(rt; kept.due.0, 345_000);
    assert_eq!(rt; kept.rows, 1);
    assert_eq!(rt; kept.lines, 1);
}

/// After a run, an opening a day too late leaves its rows, its lines and its answers.
#[test]
fn refused_opening(rt: HostRuntime) {
    let mut sheet = [BLANK; 2];
    let mut journal = [EMPTY; 2];
    let mut requests = [Request::new(TAKE), Request::new(bill(29))];
    let first = keep(h2(), 0, &mut sheet, &mut journal, &mut requests);
    assert_eq!(rt; first.err(), None);
    let second = keep(h2(), 18_263, &mut sheet, &mut journal, &mut requests);
    assert_eq!(rt; second.err(), Some(Refusal::Figures));
    assert_eq!(rt; sheet[0].charge.figure.0, 399_500);
    assert_eq!(rt; journal[0].hold, 1);
    assert_answers(&rt, &requests, &[Ok(1), Ok(399_500)]);
}
