// Events written as lines, at the edges of figures and of pages.
use events::event::{Basis, Event};
use events::unwritten::Unwritten;
use events::{read_event, write_event};
use figures::reported::{Cents, Kva, Kwh, Reading};
use method::finding::{Cause, Finding, Side, Span};
use std::test::*;

/// The largest figure that a field holds.
const LARGEST: u64 = 9_999_999_999_999;

/// The bytes that an event's line takes, or the number of its refusal.
fn written(event: Event, page: &mut [u8]) -> Result<usize, u32> {
    write_event(event, page).map_err(Unwritten::number)
}

/// Whether the event is written as this line, and the page after it is zeros.
fn writes(event: Event, line: &[u8]) -> bool {
    let mut page = [7u8; 200];
    match write_event(event, &mut page) {
        Ok(bytes) => &page[..bytes] == line && page[bytes..].iter().all(|b| *b == 0),
        Err(_) => false,
    }
}

/// A correction for a meter that ran under, from a consumer's report.
fn correction(basis: Basis) -> Event {
    Event::Correct {
        hold: 2,
        finding: Finding {
            cause: Cause::Under,
            side: Side::Consumer,
            notice: 15,
            ascertained: false,
            span: Span { first: 3, last: 4 },
        },
        basis,
    }
}

#[test]
fn takes_hand_backs_and_bills_are_written(rt: HostRuntime) {
    assert!(rt;
        writes(
            Event::Take {
                moment: 100,
                span: 10
            },
            b"T,100,10\n"
        )
    );
    assert!(rt; writes(Event::HandBack { hold: 0 }, b"H,0\n"));
    let reading = Reading {
        day: Kwh(600),
        peak: Kwh(7),
        demand: Kva(8),
    };
    assert!(rt;
        writes(
            Event::Bill {
                hold: 1,
                last: 30,
                reading
            },
            b"B,1,30,600,7,8\n"
        )
    );
}

#[test]
fn an_estimate_and_a_payment_are_written(rt: HostRuntime) {
    let estimate = Event::Estimate {
        hold: 1,
        last: 61,
        figure: Kwh(300),
        peak: 20,
        demand: Kva(5),
    };
    assert!(rt; writes(estimate, b"E,1,61,300,20,5\n"));
    assert!(rt;
        writes(
            Event::Pay {
                hold: 2,
                cents: Cents(100_000)
            },
            b"P,2,100000\n"
        )
    );
}

#[test]
fn every_method_is_written(rt: HostRuntime) {
    let test = Basis::TestMeter {
        shown: Kwh(600),
        tested: Kwh(1_000),
    };
    assert!(rt; writes(correction(test), b"C,2,U,c,15,n,3,4,M,600,1000,0,0,0\n"));
    let previous = Basis::PreviousThree { from: 9 };
    assert!(rt; writes(correction(previous), b"C,2,U,c,15,n,3,4,P,9,0,0,0,0\n"));
    let later = Basis::LaterThree { from: 9 };
    assert!(rt; writes(correction(later), b"C,2,U,c,15,n,3,4,L,9,0,0,0,0\n"));
    let contract = Basis::ContractDemand {
        kva: Kva(10),
        utilization: 50,
        power: 90,
        load: 40,
        peak: 1,
    };
    assert!(rt; writes(correction(contract), b"C,2,U,c,15,n,3,4,D,10,50,90,40,1\n"));
}

#[test]
fn a_line_page_of_exactly_the_right_length(rt: HostRuntime) {
    let take = Event::Take {
        moment: 100,
        span: 10,
    };
    let mut page = [7u8; 9];
    assert_eq!(rt; written(take, &mut page), Ok(9));
    assert!(rt; page == *b"T,100,10\n");
    let mut short = [7u8; 8];
    assert_eq!(rt; written(take, &mut short), Err(21));
    assert!(rt; short == [0; 8]);
    assert_eq!(rt; written(take, &mut []), Err(21));
}

#[test]
fn figures_that_no_line_carries(rt: HostRuntime) {
    let mut page = [7u8; 40];
    let most = Event::HandBack { hold: LARGEST };
    assert_eq!(rt; written(most, &mut page), Ok(16));
    let more = Event::HandBack { hold: LARGEST + 1 };
    assert_eq!(rt; written(more, &mut page), Err(19));
    assert!(rt; page == [0; 40]);
    let last = Event::Take {
        moment: 0,
        span: u64::MAX,
    };
    assert_eq!(rt; written(last, &mut page), Err(19));
    assert_eq!(rt;
        written(last, &mut page[..3]),
        Err(19),
        "asked before the page"
    );
}

#[test]
fn the_longest_line_is_written_and_read(rt: HostRuntime) {
    let line =
        b"C,9999999999999,X,s,9999999999999,y,9999999999999,9999999999999,D,9999999999999,9999999999999,9999999999999,9999999999999,9999999999999\n";
    let mut page = [7u8; 136];
    let event = read_event(&line[..135]);
    assert_eq!(rt;
        event.ok().map(|event| written(event, &mut page)),
        Some(Ok(136))
    );
    assert!(rt; page == *line);
}
