// Each cause at the edges of its span and its notice day.
use crate::bench::*;
use account::account::Account;
use std::process::Abort;
use tariff::plain::Plain;

/// Bills n rows of ten days and 600 units each, under hold 1.
fn bill_rows(rt: &impl Abort, a: &mut Account<Plain>, n: u8) {
    assert_lines(rt, a, &[("T,0,10", Ok(1))]);
    for k in 0..n {
        let last = 10 * u64::from(k) + 9;
        assert_eq!(rt; number(a.bill(1, last, reading(600, 0, 0))), 0);
    }
}

#[test]
fn under_by_the_consumer(rt: HostRuntime) {
    let mut memory = Memory::<6, 20>::new();
    let mut a = memory.open(&rt, H1, 0);
    bill_rows(&rt, &mut a, 3);
    assert_lines(
        &rt,
        &mut a,
        &[
            ("C,1,U,c,9,n,1,1,M,600,1000,0,0,0", Err(7)),
            ("C,1,U,c,20,n,1,1,M,600,1000,0,0,0", Err(7)),
            // two rows
            ("C,1,U,c,10,n,1,2,M,600,1000,0,0,0", Err(7)),
            ("C,1,U,c,18263,n,1,1,M,600,1000,0,0,0", Err(2)),
            ("C,1,U,c,10,n,1,1,M,1026,1000,0,0,0", Err(8)),
            ("C,1,U,c,10,n,1,1,M,600,1000,0,0,0", Ok(456_000)),
            ("C,1,U,c,19,n,1,1,M,600,1000,0,0,0", Ok(0)),
        ],
    );
}

#[test]
fn under_by_the_supplier(rt: HostRuntime) {
    let mut memory = Memory::<6, 20>::new();
    let mut a = memory.open(&rt, H1, 0);
    bill_rows(&rt, &mut a, 5);
    assert_lines(
        &rt,
        &mut a,
        &[
            // four rows
            ("C,1,U,s,0,n,0,3,M,600,1000,0,0,0", Err(7)),
            ("C,1,U,s,10,n,0,2,M,600,1000,0,0,0", Err(7)),
            ("C,1,U,s,0,n,2,1,M,600,1000,0,0,0", Err(5)),
            ("C,1,U,s,0,n,3,5,M,600,1000,0,0,0", Err(5)),
            (
                "C,1,U,s,0,n,9999999999999,9999999999999,M,600,1000,0,0,0",
                Err(5),
            ),
            ("C,1,U,s,9,n,0,2,M,600,1000,0,0,0", Ok(1_368_000)),
        ],
    );
    assert_eq!(rt; later(&a), 1_368_000);
}

#[test]
fn over_up_to_twelve_rows(rt: HostRuntime) {
    let mut memory = Memory::<14, 40>::new();
    let mut a = memory.open(&rt, H1, 0);
    bill_rows(&rt, &mut a, 13);
    assert_lines(
        &rt,
        &mut a,
        &[
            // not ascertained
            ("C,1,O,s,0,n,0,0,M,1026,1000,0,0,0", Err(7)),
            // thirteen rows
            ("C,1,O,s,0,y,0,12,M,1026,1000,0,0,0", Err(7)),
            ("C,1,O,s,0,y,0,11,M,600,1000,0,0,0", Err(8)),
            ("C,1,O,s,0,y,0,11,M,1026,1000,0,0,0", Ok(-208_620)),
        ],
    );
    assert_eq!(rt; later(&a), 0, "a refund is due at once");
}

#[test]
fn stopped_by_the_previous_three(rt: HostRuntime) {
    let mut memory = Memory::<18, 40>::new();
    let mut a = memory.open(&rt, H1, 0);
    bill_rows(&rt, &mut a, 17);
    assert_lines(
        &rt,
        &mut a,
        &[
            // not just before
            ("C,1,S,s,0,y,4,5,P,0,0,0,0,0", Err(8)),
            // thirteen rows
            ("C,1,S,s,0,y,3,15,P,0,0,0,0,0", Err(7)),
            // notice in the second row
            ("C,1,S,s,40,n,3,4,P,0,0,0,0,0", Err(7)),
            ("C,1,S,s,39,n,3,14,P,0,0,0,0,0", Ok(0)),
        ],
    );
}

#[test]
fn altered_by_the_contract_demand(rt: HostRuntime) {
    let mut memory = Memory::<8, 40>::new();
    let mut a = memory.open(&rt, H1, 0);
    bill_rows(&rt, &mut a, 5);
    assert_lines(
        &rt,
        &mut a,
        &[
            // two rows
            ("C,1,X,s,40,n,2,3,D,10,50,90,40,0", Err(7)),
            // the row of the notice
            ("C,1,X,s,30,n,1,3,D,10,50,90,40,0", Err(7)),
            ("C,1,O,s,0,y,1,3,D,10,50,90,40,0", Err(8)),
            ("C,1,X,s,49,n,1,3,D,10,50,90,40,0", Ok(-574_560)),
        ],
    );
}
