// Memory that is short, full, or longer than is used.
use crate::bench::*;
use figures::reported::Cents;

#[test]
fn no_memory(rt: HostRuntime) {
    let mut memory = Memory::<0, 0>::new();
    let mut a = memory.open(&rt, H1, 0);
    assert_lines(
        &rt,
        &mut a,
        &[
            ("T,0,10", Ok(1)),
            ("B,1,0,0,0,0", Err(3)),
            ("P,1,1", Err(10)),
            ("H,1", Ok(0)),
        ],
    );
}

#[test]
fn a_full_sheet(rt: HostRuntime) {
    let mut memory = Memory::<130, 130>::new();
    let mut a = memory.open(&rt, H1, 0);
    assert_lines(&rt, &mut a, &[("T,0,10", Ok(1))]);
    for day in 0..120u64 {
        assert_eq!(rt; number(a.bill(1, day, reading(1, 0, 0))), 0);
    }
    assert_lines(&rt, &mut a, &[("B,1,120,1,0,0", Err(3))]);
    assert_eq!(rt; a.rows().len(), 120);
    assert_eq!(rt; a.balance().0, 120 * 4_140);
}

#[test]
fn a_full_journal(rt: HostRuntime) {
    let mut memory = Memory::<2, 1_030>::new();
    let mut a = memory.open(&rt, H1, 0);
    assert_lines(&rt, &mut a, &[("T,0,10", Ok(1))]);
    for _ in 0..1_024u64 {
        assert_eq!(rt; number(a.pay(1, Cents(7))), 0);
    }
    assert_lines(&rt, &mut a, &[("P,1,7", Err(10)), ("B,1,0,0,0,0", Err(10))]);
    assert_eq!(rt; a.lines().len(), 1_024);
    assert_eq!(rt; a.due().0, -7_168);
}
