// Rows that are not read.
ghost use Rattle.std.specs.Prelude.{◌≡◌, min, true, false};
ghost use Rattle.rules.specs.Laid.{laid, with_standing, run as run_of, blank as blank_of, unmetered_by};
ghost use Rattle.rules.specs.Questions.{shares_fit};
ghost use Rattle.rules.specs.Shown.{row_of};
ghost use Rattle.figures.specs.View.{seen, period_seen, sort_of};
ghost use Rattle.account.specs.Rows.{periods};

use crate::sheet::laying::alone;
use crate::sheet::relaying::restate;
use figures::dates::Term;
use figures::money::Charge;
use figures::reported::Cents;
use figures::row::{Row, Sort};
use figures::units::ZEROS;
use method::method::Method;
use tariff::tariff::{Tariff, charged};

/// How many unmetered rows stand at the end, counted up to six: a row with so many before it is late in its run.
pub(crate) fn run(rows: &[Row]) -> usize
    ensures { result ≡ min 6 (run_of (periods rows.now)) }
{
    rows.iter()
        .rev()
        .take_while(|row| !row.is_read())
        .take(6)
        .count()
}

/// A row of zeros.
pub(crate) fn blank(term: Term, sort: Sort) -> Row
    ensures { seen result ≡ record { period = blank_of term.first.figure term.last.figure (sort_of sort); cents = 0 } }
{
    Row {
        term,
        sort,
        recorded: ZEROS,
        standing: ZEROS,
        charge: Charge { figure: Cents(0) },
    }
}

/// Whether the method's shares for this row alone keep the limit.
pub(crate) fn share_fits<M: Method>(m: &M, row: &Row) -> bool
    ensures { result ≡ shares_fit (with_standing (laid (M.Method.meaning m.now) 0 0 (period_seen row.now)) (period_seen row.now)) }
{
    alone(m, row).fit()
}

/// The unmetered row for a period, with its charge: the method's share for it alone, or zeros where it is late in its run.
/// `late` is the answer to that one question, and no value goes with it.
pub(crate) fn without_reading<T: Tariff, M: Method>(
    tariff: &mut T,
    m: &M,
    late: bool,
    term: Term,
) -> Row
    requires { late ≡ false → shares_fit (unmetered_by late term.first.figure term.last.figure (M.Method.meaning m.now)) ≡ true }
    ensures row { seen result ≡ row_of (T.Tariff.meaning tariff.old) (unmetered_by late term.first.figure term.last.figure (M.Method.meaning m.now)) }
    ensures same { T.Tariff.meaning tariff.new ≡ T.Tariff.meaning tariff.old }
{
    if late {
        let mut row = blank(term, Sort::NoEnergy);
        row.charge = charged(tariff, term.last, row.standing);
        return row;
    }
    let row = blank(term, Sort::Estimated);
    restate(tariff, m, alone(m, &row), &row)
}
