// Runs of unmetered rows: from the seventh on no energy is charged.
use crate::bench::*;
use tariff::changeover::Changeover;
use tariff::hotel::h2;

#[test]
fn six_seven_and_eight(rt: HostRuntime) {
    let mut memory = Memory::<12, 12>::new();
    let mut a = memory.open(&rt, H1, 0);
    assert_lines(
        &rt,
        &mut a,
        &[
            ("T,0,10", Ok(1)),
            ("E,1,9,300,0,0", Ok(117_000)),
            ("E,1,19,300,0,0", Ok(117_000)),
            ("E,1,29,300,0,0", Ok(117_000)),
            ("E,1,39,300,0,0", Ok(117_000)),
            ("E,1,49,300,0,0", Ok(117_000)),
            ("E,1,59,300,0,0", Ok(117_000)),
            // the seventh and the eighth
            ("E,1,69,300,0,0", Ok(3_000)),
            ("E,1,79,300,0,0", Ok(3_000)),
            // a new run
            ("B,1,89,1,0,0", Ok(4_140)),
            ("E,1,99,300,0,0", Ok(117_000)),
        ],
    );
}

#[test]
fn a_method_that_serves_no_estimate_is_not_asked_late(rt: HostRuntime) {
    let mut memory = Memory::<12, 12>::new();
    let mut a = memory.open(&rt, H1, 0);
    assert_lines(&rt, &mut a, &[("T,0,10", Ok(1))]);
    assert_eq!(rt; number(a.estimate(1, 0, &SLOW)), 8);
    assert_lines(
        &rt,
        &mut a,
        &[
            ("E,1,0,300,0,0", Ok(14_400)),
            ("E,1,1,300,0,0", Ok(14_400)),
            ("E,1,2,300,0,0", Ok(14_400)),
            ("E,1,3,300,0,0", Ok(14_400)),
            ("E,1,4,300,0,0", Ok(14_400)),
            ("E,1,5,300,0,0", Ok(14_400)),
        ],
    );
    assert_eq!(rt; number(a.estimate(1, 6, &SLOW)), 0);
}

#[test]
fn a_changeover_inside_a_run(rt: HostRuntime) {
    let tariff = Changeover::new(H1, h2(), 20)
        .ok()
        .expect(&rt, "no changeover");
    let mut memory = Memory::<3, 3>::new();
    let mut a = memory.open(&rt, tariff, 0);
    assert_lines(
        &rt,
        &mut a,
        &[
            ("T,0,10", Ok(1)),
            ("E,1,9,300,0,0", Ok(117_000)),
            // the last day before
            ("E,1,19,300,0,0", Ok(117_000)),
            // from its day on
            ("E,1,29,300,0,0", Ok(193_000)),
        ],
    );
}

#[test]
fn an_absent_run_corrected(rt: HostRuntime) {
    let mut memory = Memory::<12, 20>::new();
    let mut a = memory.open(&rt, H1, 0);
    assert_lines(
        &rt,
        &mut a,
        &[
            ("T,0,10", Ok(1)),
            ("B,1,9,100,0,0", Ok(117_000)),
            ("E,1,19,300,0,0", Ok(117_000)),
            ("E,1,29,300,0,0", Ok(117_000)),
            ("B,1,39,200,0,0", Ok(231_000)),
            ("B,1,49,200,0,0", Ok(231_000)),
            ("B,1,59,200,0,0", Ok(231_000)),
            // a row of the run left out
            ("C,1,A,s,0,n,1,1,L,3,0,0,0,0", Err(6)),
            // a read row
            ("C,1,A,s,0,n,0,2,L,3,0,0,0,0", Err(6)),
            ("C,1,A,s,0,n,1,2,L,3,0,0,0,0", Ok(228_000)),
        ],
    );
    assert_eq!(rt; later(&a), 228_000);
    assert_lines(&rt, &mut a, &[("B,1,69,0,0,0", Ok(3_000))]);
    assert_eq!(rt; later(&a), 190_000, "a sixth with each bill");
}
