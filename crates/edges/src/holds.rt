// Holds at exactly their time, and clerks who come too late.
use crate::bench::*;

#[test]
fn taken_over_at_exactly_its_time(rt: HostRuntime) {
    let mut memory = Memory::<2, 2>::new();
    let mut a = memory.open(&rt, H1, 0);
    assert_lines(
        &rt,
        &mut a,
        &[
            ("H,0", Err(1)),
            ("T,100,10", Ok(1)),
            ("T,109,10", Err(11)),
            ("B,1,0,0,0,0", Ok(3_000)),
            ("T,110,10", Ok(2)),
            ("H,1", Err(1)),
            ("B,1,1,0,0,0", Err(1)),
            ("H,2", Ok(0)),
            ("H,2", Err(1)),
            // the clock may run backwards
            ("T,3,10", Ok(3)),
        ],
    );
}

#[test]
fn figures_of_a_take(rt: HostRuntime) {
    let mut memory = Memory::<1, 1>::new();
    let mut a = memory.open(&rt, H1, 0);
    assert_lines(
        &rt,
        &mut a,
        &[
            ("T,1000000000001,10", Err(2)),
            ("T,0,0", Err(2)),
            ("T,0,86401", Err(2)),
            ("T,1000000000000,86400", Ok(1)),
            ("T,1000000000000,1", Err(11)),
        ],
    );
}

#[test]
fn figures_of_a_payment(rt: HostRuntime) {
    let mut memory = Memory::<1, 2>::new();
    let mut a = memory.open(&rt, H1, 0);
    assert_lines(
        &rt,
        &mut a,
        &[
            ("T,0,10", Ok(1)),
            ("P,1,0", Err(2)),
            ("P,1,1000000000001", Err(2)),
            ("P,1,1000000000000", Ok(1_000_000_000_000)),
            ("P,1,1", Ok(1)),
        ],
    );
    assert_eq!(rt; a.balance().0, -1_000_000_000_001);
    assert_eq!(rt; a.due().0, -1_000_000_000_001);
}

#[test]
fn two_clerks_on_one_quarter(rt: HostRuntime) {
    let mut memory = Memory::<2, 4>::new();
    let mut a = memory.open(&rt, H1, 0);
    assert_lines(
        &rt,
        &mut a,
        &[
            ("T,100,10", Ok(1)),
            ("B,1,30,600,0,0", Ok(687_000)),
            ("T,110,10", Ok(2)),
            ("C,2,U,c,15,n,0,0,M,600,1000,0,0,0", Ok(456_000)),
            ("C,1,U,c,15,n,0,0,M,600,1000,0,0,0", Err(1)),
            // worked out from the recorded units again
            ("C,2,U,c,15,n,0,0,M,600,1000,0,0,0", Ok(0)),
        ],
    );
    assert_eq!(rt; a.balance().0, 1_143_000);
    assert_eq!(rt; a.due().0, 687_000);
}
