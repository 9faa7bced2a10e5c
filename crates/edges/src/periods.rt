// Days, periods and readings at their limits.
use crate::bench::*;
use account::account::Account;
use figures::line::EMPTY;
use figures::row::BLANK;
use method::finding::{Cause, Finding, Side, Span};
use tariff::tariff::Tariff;

#[test]
fn a_hundred_days_and_one_more(rt: HostRuntime) {
    let mut memory = Memory::<3, 3>::new();
    let mut a = memory.open(&rt, H1, 0);
    assert_lines(
        &rt,
        &mut a,
        &[
            ("T,0,10", Ok(1)),
            ("B,1,99,100,0,0", Ok(117_000)),
            ("B,1,200,0,0,0", Err(4)),
            ("B,1,99,0,0,0", Err(4)),
            ("B,1,100,0,0,0", Ok(3_000)),
        ],
    );
}

#[test]
fn the_last_day(rt: HostRuntime) {
    let mut memory = Memory::<3, 3>::new();
    let mut a = memory.open(&rt, H1, 18_262);
    assert_lines(
        &rt,
        &mut a,
        &[
            ("T,0,10", Ok(1)),
            ("B,1,18263,0,0,0", Err(2)),
            ("B,1,18262,0,0,0", Ok(3_000)),
            ("B,1,18262,0,0,0", Err(4)),
        ],
    );
}

/// The number of the answer where an account opens on `day`.
fn opened_on(tariff: impl Tariff + Drop, day: u64) -> u32 {
    let mut memory = account::memory::Memory {
        sheet: &mut [BLANK; 1],
        journal: &mut [EMPTY; 1],
    };
    number(Account::open(tariff, day, &mut memory))
}

#[test]
fn opened_a_day_too_late(rt: HostRuntime) {
    for (day, number) in [(18_262, 0), (18_263, 2), (u64::MAX, 2)] {
        assert_eq!(rt; opened_on(H1, day), number, "{day}");
    }
}

#[test]
fn units_and_demand(rt: HostRuntime) {
    let mut memory = Memory::<3, 3>::new();
    let mut a = memory.open(&rt, H1, 0);
    assert_lines(
        &rt,
        &mut a,
        &[
            ("T,0,10", Ok(1)),
            ("B,1,0,1000001,0,0", Err(2)),
            ("B,1,0,0,1000001,0", Err(2)),
            ("B,1,0,0,0,10001", Err(2)),
            ("B,1,0,1000000,1000000,10000", Ok(2_280_003_000)),
        ],
    );
}

/// Figures that no line carries, since they have more than 13 digits.
#[test]
fn the_largest_figures(rt: HostRuntime) {
    let mut memory = Memory::<3, 3>::new();
    let mut a = memory.open(&rt, H1, 0);
    let most = reading(u64::MAX, 0, 0);
    assert_eq!(rt; number(a.take(u64::MAX, u64::MAX)), 2);
    assert_lines(
        &rt,
        &mut a,
        &[("T,0,10", Ok(1)), ("B,1,0,1,0,0", Ok(4_140))],
    );
    assert_eq!(rt; number(a.bill(1, 1, most)), 2);
    assert_eq!(rt; number(a.bill(u64::MAX, 1, most)), 1);
    let finding = Finding {
        cause: Cause::Under,
        side: Side::Supplier,
        notice: 0,
        ascertained: false,
        span: Span {
            first: 9_999_999_999_999,
            last: u64::MAX,
        },
    };
    assert_eq!(rt; number(a.correct(1, finding, &SLOW)), 5);
    let from_the_first = Finding {
        span: Span {
            first: 0,
            last: u64::MAX,
        },
        ..finding
    };
    assert_eq!(rt; number(a.correct(1, from_the_first, &SLOW)), 5);
}
