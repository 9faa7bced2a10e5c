// The totals of a journal: charged by the lines that name a row, paid by those that name none.
use crate::bench::*;
use account::account::Account;
use figures::reported::Cents;
use std::process::Abort;
use tariff::plain::Plain;

fn assert_totals(rt: &impl Abort, a: &Account<Plain>, charged: i64, paid: u64) {
    let totals = a.totals();
    assert_eq!(rt; totals.charged.0, charged);
    assert_eq!(rt; totals.paid.0, paid);
}

#[test]
fn a_bill_a_correction_and_a_payment(rt: HostRuntime) {
    let mut memory = Memory::<4, 8>::new();
    let mut a = memory.open(&rt, H1, 0);
    assert_totals(&rt, &a, 0, 0);
    assert_lines(
        &rt,
        &mut a,
        &[
            ("T,100,10", Ok(1)),
            // 600 units at 1,140, and 3,000
            ("B,1,30,600,0,0", Ok(687_000)),
            // 400 units more
            ("C,1,U,c,15,n,0,0,M,600,1000,0,0,0", Ok(456_000)),
            ("P,1,100000", Ok(100_000)),
            // refused, so in no total
            ("P,1,0", Err(2)),
        ],
    );
    assert_totals(&rt, &a, 1_143_000, 100_000);
    assert_eq!(rt; a.balance().0, 1_043_000);
}

#[test]
fn payments_before_any_bill(rt: HostRuntime) {
    let mut memory = Memory::<4, 8>::new();
    let mut a = memory.open(&rt, H1, 0);
    assert_lines(
        &rt,
        &mut a,
        &[
            ("T,0,10", Ok(1)),
            ("P,1,1", Ok(1)),
            ("P,1,1000000000000", Ok(1_000_000_000_000)),
        ],
    );
    assert_totals(&rt, &a, 0, 1_000_000_000_001);
    assert_eq!(rt; a.balance().0, -1_000_000_000_001);
}

#[test]
fn a_refund_is_charged_less(rt: HostRuntime) {
    let mut memory = Memory::<4, 8>::new();
    let mut a = memory.open(&rt, H1, 0);
    assert_lines(
        &rt,
        &mut a,
        &[
            ("T,0,10", Ok(1)),
            // 513 units at 1,140, and 3,000
            ("B,1,29,513,0,0", Ok(587_820)),
            // 500 units of them
            ("C,1,O,s,0,y,0,0,M,1026,1000,0,0,0", Ok(-14_820)),
            ("P,1,600000", Ok(600_000)),
        ],
    );
    assert_totals(&rt, &a, 573_000, 600_000);
    assert_eq!(rt; a.balance().0, -27_000);
}

#[test]
fn a_journal_of_the_largest_payments(rt: HostRuntime) {
    let mut memory = Memory::<1, 1_024>::new();
    let mut a = memory.open(&rt, H1, 0);
    assert_lines(&rt, &mut a, &[("T,0,10", Ok(1))]);
    for _ in 0..1_024u64 {
        assert_eq!(rt; number(a.pay(1, Cents(1_000_000_000_000))), 0);
    }
    assert_totals(&rt, &a, 0, 1_024_000_000_000_000);
}
