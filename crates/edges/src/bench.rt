// What the tests share: memory to lend, a tariff, meters, and tables of lines with what they are answered.
use account::account::Account;
use account::memory::Memory as Lent;
use account::refusal::Refusal;
use desk::fault::Fault;
use desk::serving::serve;
use figures::line::{EMPTY, Line};
use figures::reported::{Cents, Kva, Kwh, Reading};
use figures::row::{BLANK, Row};
use figures::units::Units;
use method::test_meter::TestMeter;
use std::process::Abort;
use tariff::plain::Plain;
use tariff::rates::{FixedCharge, Rate};
use tariff::tariff::Tariff;

/// H-1 at 10 kVA.
pub(crate) const H1: Plain = Plain {
    rate: Rate {
        figure: Cents(1_140),
    },
    fixed: FixedCharge {
        figure: Cents(3_000),
    },
};

/// The meter showed 600 where the test meter showed 1,000.
pub(crate) const SLOW: TestMeter = TestMeter {
    shown: Units { figure: Kwh(600) },
    tested: Units { figure: Kwh(1_000) },
};

/// The meter showed 1,026 where the test meter showed 1,000.
pub(crate) const FAST: TestMeter = TestMeter {
    shown: Units { figure: Kwh(1_026) },
    tested: Units { figure: Kwh(1_000) },
};

/// Memory to lend to an account.
#[derive(Drop)]
pub(crate) struct Memory<const ROWS: usize, const LINES: usize> {
    sheet: [Row; ROWS],
    journal: [Line; LINES],
}

impl<const ROWS: usize, const LINES: usize> Memory<ROWS, LINES> {
    pub(crate) fn new() -> Memory<ROWS, LINES> {
        Memory {
            sheet: [BLANK; ROWS],
            journal: [EMPTY; LINES],
        }
    }

    /// An account over this memory that opens on `day`.
    pub(crate) fn open<T: Tariff + Drop>(
        &mut self,
        rt: &impl Abort,
        tariff: T,
        day: u64,
    ) -> Account<'_, T> {
        let mut lent = Lent {
            sheet: &mut self.sheet,
            journal: &mut self.journal,
        };
        Account::open(tariff, day, &mut lent)
            .ok()
            .expect(rt, "not opened")
    }
}

/// The number of a call's answer, as the page prints it: 0, or that of its refusal.
pub(crate) fn number<X: Drop>(answer: Result<X, Refusal>) -> u32 {
    answer.err().map_or(0, Refusal::number)
}

/// Puts each line to the account, and asserts what it is answered: its value, or the number of its refusal.
pub(crate) fn assert_lines<T: Tariff>(
    rt: &impl Abort,
    a: &mut Account<T>,
    table: &[(&str, Result<i64, u32>)],
) {
    for (line, answer) in table {
        let served = serve(a, line.as_bytes()).map_err(Fault::number);
        assert_eq!(rt; served, *answer, "{line}");
    }
}

/// What of the balance has not yet fallen due.
pub(crate) fn later<T>(a: &Account<T>) -> i64 {
    a.balance().0.wrapping_sub(a.due().0)
}

pub(crate) fn reading(day: u64, peak: u64, demand: u64) -> Reading {
    Reading {
        day: Kwh(day),
        peak: Kwh(peak),
        demand: Kva(demand),
    }
}
