// Estimates.
ghost use Rattle.std.specs.Prelude.{◌≡◌, ℕ, ◌+◌, ◌<◌, ◌≤◌, true, false, nat_le};
ghost use Rattle.rules.specs.Subject.{estimate};
ghost use Rattle.rules.specs.Laid.{next_day, is_late as late_after, unmetered_by};
ghost use Rattle.rules.specs.Questions.{question, first_no, share_asked, shares_fit};
ghost use Rattle.rules.specs.Machine.{view, periods_of};
ghost use Rattle.account.specs.State.{state_of, opening_of, Stepped, LawfulAfter};
ghost use Rattle.account.specs.Work.{Roomy};
ghost use Rattle.account.specs.Answers.{Asked, billed_answer};

use crate::account::Account;
use crate::refusal::Refusal;
use crate::sheet::estimating;
use figures::dates::{Day, Term};
use figures::money::Charge;
use figures::row::Sort;
use method::finding::{Span, Use};
use method::method::{Method, may_serve};
use tariff::tariff::Tariff;

/// An estimate that every question has passed; late from the seventh unmetered row of a run on, a flag with no value of its own.
#[derive(Clone, Copy)]
struct Estimating {
    hold: u32,
    term: Term,
    late: bool,
}

/// The questions about the method: none where the row is late in its run, a yes or no that `is_late` gives.
fn ask_share<M: Method>(m: &M, late: bool, place: u64, term: Term) -> Result<(), Refusal>
    ensures { Asked (first_no (share_asked late place term.first.figure term.last.figure (M.Method.meaning m.now))) (λ _. (late ≡ false → shares_fit (unmetered_by late term.first.figure term.last.figure (M.Method.meaning m.now)) ≡ true)) result }
{
    if late {
        return Ok(());
    }
    if !may_serve(
        m,
        Use::Estimates,
        Span {
            first: place,
            last: place,
        },
    ) {
        return Err(Refusal::NoFit);
    }
    if !estimating::share_fits(m, &estimating::blank(term, Sort::Estimated)) {
        return Err(Refusal::ShareTooLarge);
    }
    Ok(())
}

impl<'a, T: Tariff> Account<'a, T> {
    /// Whether the next unmetered row is the seventh of its run or later.
    fn is_late(&self) -> bool
        ensures { result ≡ late_after (periods_of (state_of self.now)) }
    {
        estimating::run(self.rows()) >= 6
    }

    /// The questions of an estimate.
    fn ask_estimate<M: Method>(&self, hold: u64, last: u64, m: &M) -> Result<Estimating, Refusal>
        ensures { Asked (question (opening_of self.now) (view (state_of self.now)) (estimate hold last (M.Method.meaning m.now))) (λ e. (e.hold ≡ hold) × (e.term.first.figure ≡ next_day self.now.opening.figure (periods_of (state_of self.now))) × (e.term.last.figure ≡ last) × (e.late ≡ late_after (periods_of (state_of self.now))) × (e.late ≡ false → shares_fit (unmetered_by e.late e.term.first.figure e.term.last.figure (M.Method.meaning m.now)) ≡ true) × Roomy self.now) result }
    {
        let hold = self.held(hold)?;
        let last = Day::new(last)?;
        self.sheet_takes()?;
        let term = self.next_term(last)?;
        let late = self.is_late();
        ask_share(m, late, self.sheet.len() as u64, term)?;
        self.journal_takes(1)?;
        Ok(Estimating { hold, term, late })
    }

    /// Bills a period that ends on `last` and was not read: by the method's share, or without energy where it is late in its run.
    pub fn estimate<M: Method>(&mut self, hold: u64, last: u64, m: &M) -> Result<Charge, Refusal>
        ensures after { Stepped T.Tariff.meaning self.old self.new (estimate hold last (M.Method.meaning m.now)) (billed_answer result) }
        ensures law { LawfulAfter T.Tariff.meaning self.old self.new (estimate hold last (M.Method.meaning m.now)) (billed_answer result) }
    {
        let Estimating { hold, term, late } = self.ask_estimate(hold, last, m)?;
        let row = estimating::without_reading(&mut self.tariff, m, late, term);
        self.enter(hold, row);
        Ok(row.charge)
    }
}
