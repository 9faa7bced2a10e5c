// The makings of the five methods at each limit, and what each method serves and fits.
use crate::bench::*;
use figures::reported::{Kva, Kwh};
use method::category::Category;
use method::contract_demand::ContractDemand;
use method::fault::MethodFault;
use method::finding::{Cause, Span, Use};
use method::later_three::LaterThree;
use method::method::{Method, may_serve};
use method::previous_three::PreviousThree;
use method::test_meter::TestMeter;
use std::process::Abort;

/// The number of a making's answer: 0, or that of its refusal.
fn asked<M: Drop>(making: Result<M, MethodFault>) -> u32 {
    making.err().map_or(0, MethodFault::number)
}

#[test]
fn a_category_at_its_limits(rt: HostRuntime) {
    for (figure, peak, demand, number) in [
        (0, 0, 0, 0),
        (1_000_000, 100, 10_000, 0),
        (1_000_001, 100, 10_000, 2),
        (1_000_000, 101, 10_000, 2),
        (1_000_000, 100, 10_001, 2),
        (u64::MAX, 0, 0, 2),
        (0, u64::MAX, 0, 2),
        (0, 0, u64::MAX, 2),
    ] {
        assert_eq!(rt;
            asked(Category::new(Kwh(figure), peak, Kva(demand))),
            number,
            "{figure}, {peak}, {demand}"
        );
    }
}

#[test]
fn a_test_meter_at_its_limits(rt: HostRuntime) {
    for (shown, tested, number) in [
        (1, 1_000_000, 0),
        (1_000_000, 1, 0),
        (1_000_001, 0, 2),
        (0, 1_000_001, 2),
        (u64::MAX, u64::MAX, 2),
        (0, 0, 13),
        (600, 0, 13),
        (0, 1_000, 14),
        (0, 1, 14),
        (1_000, 1_000, 15),
        (1_025, 1_000, 15),
        (1_026, 1_000, 0),
        (975, 1_000, 15),
        (974, 1_000, 0),
        (41, 40, 15),
        (40, 39, 0),
        (1_000_000, 975_609, 0),
        (1_000_000, 975_610, 15),
    ] {
        assert_eq!(rt;
            asked(TestMeter::new(Kwh(shown), Kwh(tested))),
            number,
            "{shown}, {tested}"
        );
    }
}

#[test]
fn a_contract_demand_at_its_limits(rt: HostRuntime) {
    for (kva, utilization, power, load, peak, number) in [
        (0, 0, 0, 0, 0, 0),
        (1_000, 100, 100, 100, 100, 0),
        (1_001, 100, 100, 100, 100, 2),
        (1_000, 101, 100, 100, 100, 2),
        (1_000, 100, 101, 100, 100, 2),
        (1_000, 100, 100, 101, 100, 2),
        (1_000, 100, 100, 100, 101, 2),
        (u64::MAX, 0, 0, 0, 0, 2),
        (0, u64::MAX, 0, 0, u64::MAX, 2),
    ] {
        assert_eq!(rt;
            asked(ContractDemand::new(Kva(kva), utilization, power, load, peak)),
            number,
            "{kva}, {utilization}, {power}, {load}, {peak}"
        );
    }
}

#[test]
fn three_rows_at_the_sheets_end(rt: HostRuntime) {
    let mut memory = Memory::<6, 6>::new();
    let mut a = memory.open(&rt, H1, 0);
    assert_lines(
        &rt,
        &mut a,
        &[
            ("T,0,10", Ok(1)),
            ("B,1,0,5,0,0", Ok(8_700)),
            ("B,1,1,0,1,0", Ok(4_140)),
            ("B,1,2,0,0,0", Ok(3_000)),
            ("B,1,3,0,0,0", Ok(3_000)),
            ("B,1,4,0,0,0", Ok(3_000)),
        ],
    );
    for (from, previous, later) in [
        (0, 0, 0),
        (1, 0, 0),
        (2, 17, 0),
        (3, 16, 16),
        (4, 16, 16),
        (5, 16, 16),
        (9_999_999_999_999, 16, 16),
        (u64::MAX - 2, 16, 16),
        (u64::MAX, 16, 16),
    ] {
        assert_eq!(rt;
            asked(PreviousThree::new(a.rows(), from)),
            previous,
            "previous {from}"
        );
        assert_eq!(rt;
            asked(LaterThree::new(a.rows(), from)),
            later,
            "later {from}"
        );
    }
}

#[test]
fn three_rows_that_are_not_all_read(rt: HostRuntime) {
    let mut memory = Memory::<6, 6>::new();
    let mut a = memory.open(&rt, H1, 0);
    assert_eq!(rt; asked(PreviousThree::new(a.rows(), 0)), 16, "no row at all");
    assert_lines(
        &rt,
        &mut a,
        &[
            ("T,0,10", Ok(1)),
            ("B,1,0,7,0,0", Ok(10_980)),
            ("B,1,1,7,0,0", Ok(10_980)),
            ("E,1,2,300,0,0", Ok(14_400)),
            ("B,1,3,7,0,0", Ok(10_980)),
            ("B,1,4,7,0,0", Ok(10_980)),
            ("B,1,5,7,0,0", Ok(10_980)),
        ],
    );
    for (from, number) in [(0, 16), (1, 16), (2, 16), (3, 0)] {
        assert_eq!(rt;
            asked(PreviousThree::new(a.rows(), from)),
            number,
            "previous {from}"
        );
        assert_eq!(rt;
            asked(LaterThree::new(a.rows(), from)),
            number,
            "later {from}"
        );
    }
}

/// Whether a method serves the span: for an estimate, and for the causes absent, under, over, stopped and altered.
fn served<M: Method>(m: &M, first: u64, last: u64) -> [bool; 6] {
    let span = Span { first, last };
    [
        may_serve(m, Use::Estimates, span),
        may_serve(m, Use::Correcting(Cause::Absent), span),
        may_serve(m, Use::Correcting(Cause::Under), span),
        may_serve(m, Use::Correcting(Cause::Over), span),
        may_serve(m, Use::Correcting(Cause::Stopped), span),
        may_serve(m, Use::Correcting(Cause::Altered), span),
    ]
}

#[test]
fn what_the_methods_by_figures_serve(rt: HostRuntime) {
    let category = Category::new(Kwh(300), 0, Kva(0))
        .ok()
        .expect(&rt, "no category");
    let contract = ContractDemand::new(Kva(10), 50, 90, 40, 0)
        .ok()
        .expect(&rt, "no contract demand");
    for (first, last) in [(0, 0), (7, 18), (u64::MAX, u64::MAX)] {
        assert_eq!(rt;
            served(&category, first, last),
            [true, false, false, false, false, false]
        );
        assert_eq!(rt;
            served(&SLOW, first, last),
            [false, false, true, false, false, false]
        );
        assert_eq!(rt;
            served(&FAST, first, last),
            [false, false, false, true, false, false]
        );
        assert_eq!(rt;
            served(&contract, first, last),
            [false, false, false, false, false, true]
        );
    }
}

#[test]
fn what_the_methods_by_three_rows_serve(rt: HostRuntime) {
    let mut memory = Memory::<10, 10>::new();
    let mut a = memory.open(&rt, H1, 0);
    assert_lines(&rt, &mut a, &[("T,0,10", Ok(1))]);
    for day in 0..10u64 {
        assert_eq!(rt; number(a.bill(1, day, reading(7, 0, 0))), 0);
    }
    let previous = PreviousThree::new(a.rows(), 2)
        .ok()
        .expect(&rt, "no previous three");
    let later = LaterThree::new(a.rows(), 7)
        .ok()
        .expect(&rt, "no later three");
    for (first, last, before, after) in [
        (5, 6, true, true),
        (4, 6, false, true),
        (6, 6, false, true),
        (5, 5, true, false),
        (5, 7, true, false),
        (2, 4, false, false),
        (7, 9, false, false),
        (0, 0, false, false),
        (u64::MAX, u64::MAX, false, false),
    ] {
        assert_eq!(rt;
            served(&previous, first, last),
            [false, false, false, false, before, false],
            "previous, {first} to {last}"
        );
        assert_eq!(rt;
            served(&later, first, last),
            [false, after, false, false, after, false],
            "later, {first} to {last}"
        );
    }
}

#[test]
fn three_rows_from_the_first_on(rt: HostRuntime) {
    let mut memory = Memory::<3, 3>::new();
    let mut a = memory.open(&rt, H1, 0);
    assert_lines(
        &rt,
        &mut a,
        &[
            ("T,0,10", Ok(1)),
            ("B,1,0,7,0,0", Ok(10_980)),
            ("B,1,1,7,0,0", Ok(10_980)),
            ("B,1,2,7,0,0", Ok(10_980)),
        ],
    );
    let previous = PreviousThree::new(a.rows(), 0)
        .ok()
        .expect(&rt, "no previous three");
    let later = LaterThree::new(a.rows(), 0)
        .ok()
        .expect(&rt, "no later three");
    for (first, last, fits) in [
        (3, 3, true),
        (2, 3, false),
        (4, 4, false),
        (0, u64::MAX, false),
    ] {
        let span = Span { first, last };
        assert_eq!(rt; previous.fits(Use::Correcting(Cause::Stopped), span), fits);
        assert!(rt;
            !later.fits(Use::Correcting(Cause::Stopped), span),
            "no row is before the first"
        );
    }
}
