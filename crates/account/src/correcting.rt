// Corrections.
ghost use Rattle.std.specs.Prelude.{◌≡◌, ℕ, ◌+◌, ◌-◌, ◌<◌, ◌≤◌, length};
ghost use Rattle.rules.specs.Subject.{correct};
ghost use Rattle.rules.specs.Questions.{question, first_no, rows_asked, bills};
ghost use Rattle.rules.specs.Laid.{rewritten};
ghost use Rattle.rules.specs.Machine.{view};
ghost use Rattle.method.specs.Uses.{finding_of};
ghost use Rattle.account.specs.Rows.{periods};
ghost use Rattle.account.specs.State.{state_of, opening_of, Stepped, LawfulAfter};
ghost use Rattle.account.specs.Answers.{Asked, corrected_answer};

use crate::account::Account;
use crate::refusal::Refusal;
use crate::sheet::found::Found;
use crate::sheet::relaying;
use crate::sums::bills::Bills;
use figures::dates::Day;
use figures::money::Money;
use method::finding::{Cause, Finding, Use};
use method::method::{Method, may_serve};
use tariff::tariff::Tariff;

/// Over how many bills an undercharge is spread.
fn bills_for(f: Finding) -> Bills
    requires { (f.span.first ≤ f.span.last) × (f.span.last < 1000) × (bills (finding_of f) ≤ 12) }
    ensures { result.count ≡ bills (finding_of f) }
{
    let count = match f.cause {
        Cause::Absent => 6,
        Cause::Altered => 1,
        _ => f.span.last + 1 - f.span.first,
    };
    Bills { count }
}

/// The questions about the rows and the method; how many rows are rewritten.
fn ask_rows<M: Method>(m: &M, found: &Found) -> Result<usize, Refusal>
    ensures { Asked (first_no (rows_asked (finding_of found.now.finding) (M.Method.meaning m.now) (periods found.now.rows.now))) (λ n. n ≡ length (rewritten (finding_of found.now.finding) 0 (periods found.now.rows.now))) result }
{
    let Finding { cause, span, .. } = found.finding;
    if !found.is_billed() {
        return Err(Refusal::NotBilled);
    }
    if !found.sorts_right() {
        return Err(Refusal::WrongSort);
    }
    if !found.span_right() {
        return Err(Refusal::WrongSpan);
    }
    if !may_serve(m, Use::Correcting(cause), span) {
        return Err(Refusal::NoFit);
    }
    let found = found.narrowed();
    if !found.shares_fit(m) {
        return Err(Refusal::ShareTooLarge);
    }
    Ok(found.count())
}

impl<'a, T: Tariff> Account<'a, T> {
    /// The questions of a correction; the number of its hold.
    fn ask_correct<M: Method>(&self, hold: u64, f: Finding, m: &M) -> Result<u32, Refusal>
        ensures { Asked (question (opening_of self.now) (view (state_of self.now)) (correct hold (finding_of f) (M.Method.meaning m.now))) (λ n. n ≡ hold) result }
    {
        let hold = self.held(hold)?;
        let _ = Day::new(f.notice)?;
        let found = Found {
            finding: f,
            rows: self.rows(),
        };
        let lines = ask_rows(m, &found)?;
        self.journal_takes(lines)?;
        Ok(hold)
    }

    /// Lays new registers on the rows of a finding, and spreads or settles what that comes to.
    pub fn correct<M: Method>(&mut self, hold: u64, f: Finding, m: &M) -> Result<Money, Refusal>
        ensures after { Stepped T.Tariff.meaning self.old self.new (correct hold (finding_of f) (M.Method.meaning m.now)) (corrected_answer result) }
        ensures law { LawfulAfter T.Tariff.meaning self.old self.new (correct hold (finding_of f) (M.Method.meaning m.now)) (corrected_answer result) }
    {
        let hold = self.ask_correct(hold, f, m)?;
        let before = self.journal.len();
        let u = relaying::relay_sheet(
            &mut self.tariff,
            m,
            f,
            hold,
            &mut self.sheet,
            &mut self.journal,
        );
        // counted where they were written, so that the sums rest on the journal itself
        let lines = (self.journal.len() - before) as u32;
        self.sums.correct(u, bills_for(f), lines);
        Ok(u)
    }
}
