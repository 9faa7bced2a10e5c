// Whether the span of a finding is right: whether it is billed, the sorts of its rows, and the rule of its cause.
ghost use Rattle.std.specs.Prelude.{◌≡◌, ◌+◌, ◌-◌, ◌&&◌, Bool, nat_lt};
ghost use Rattle.rules.specs.Subject.{Period, is_read, unmetered};
ghost use Rattle.rules.specs.Questions.{row_is, has_day, span_right as span_right_of, sorts_right as sorts_right_of, every, is_billed, sort_fits, not_left_out};
ghost use Rattle.figures.specs.View.{sort_of};
ghost use Rattle.method.specs.Uses.{finding_of, cause_of, side_of};
ghost use Rattle.account.specs.Rows.{periods};

use crate::sheet::found::Found;
use method::finding::{Cause, Finding, Side};

impl<'a> Found<'a> {
    /// Whether the span is in order and its last row is there.
    pub(crate) fn is_billed(&self) -> bool
        ensures { result ≡ is_billed (finding_of self.now.finding) (periods self.now.rows.now) }
    {
        let span = self.finding.span;
        span.first <= span.last && span.last < self.rows.len() as u64
    }

    /// Whether the rows are of the cause's sort. The cause is asked once, since a run may be long.
    fn all_of_sort(&self) -> bool
        ensures { result ≡ every (sort_fits (finding_of self.now.finding)) 0 (periods self.now.rows.now) }
    {
        let rows = self.covered();
        if self.finding.cause == Cause::Absent {
            return rows.iter().all(|row| !row.is_read());
        }
        rows.iter().all(|row| row.is_read())
    }

    fn unmetered_before(&self) -> bool
        ensures { result ≡ (nat_lt 0 self.now.finding.span.first && row_is unmetered (periods self.now.rows.now) (self.now.finding.span.first - 1)) }
    {
        let first = self.finding.span.first;
        first > 0 && self.unmetered_at(first - 1)
    }

    fn none_left_out(&self) -> bool
        ensures { result ≡ every (not_left_out (finding_of self.now.finding)) 0 (periods self.now.rows.now) }
    {
        !self.unmetered_before() && !self.unmetered_at(self.after())
    }

    /// Whether the rows are of the cause's sort, and for an absent reading no unmetered row that adjoins is left out.
    pub(crate) fn sorts_right(&self) -> bool
        ensures { result ≡ sorts_right_of (finding_of self.now.finding) (periods self.now.rows.now) }
    {
        self.all_of_sort() && (self.finding.cause != Cause::Absent || self.none_left_out())
    }

    /// Whether the row is there and holds the day of the notice.
    fn noticed_in(&self, row: u64) -> bool
        ensures { result ≡ row_is (has_day self.now.finding.notice) (periods self.now.rows.now) row }
    {
        let day = self.finding.notice;
        self.rows
            .get(row as usize)
            .is_some_and(|row| row.term.has(day))
    }

    /// Whether the row is there and is read.
    fn read_at(&self, row: u64) -> bool
        ensures { result ≡ row_is (λ p. is_read p.sort) (periods self.now.rows.now) row }
    {
        self.rows.get(row as usize).is_some_and(|row| row.is_read())
    }

    /// Whether the row is there and is not read.
    fn unmetered_at(&self, row: u64) -> bool
        ensures { result ≡ row_is unmetered (periods self.now.rows.now) row }
    {
        self.rows
            .get(row as usize)
            .is_some_and(|row| !row.is_read())
    }

    /// The row just after the span, or one beyond the sheet where that is.
    fn after(&self) -> u64
        ensures { (test : Period → Bool) → row_is test (periods self.now.rows.now) result ≡ row_is test (periods self.now.rows.now) (self.now.finding.span.last + 1) }
    {
        self.finding.span.last.min(self.rows.len() as u64) + 1
    }

    /// Whether the span keeps the rest of its cause's rule.
    pub(crate) fn span_right(&self) -> bool
        ensures { result ≡ span_right_of (cause_of self.now.finding.cause) (side_of self.now.finding.side) (finding_of self.now.finding) (periods self.now.rows.now) }
    {
        let Finding {
            cause,
            side,
            ascertained,
            span,
            ..
        } = self.finding;
        let size = span.size();
        match (cause, side) {
            (Cause::Absent, _) => self.read_at(self.after()),
            (Cause::Under, Side::Consumer) => size == 1 && self.noticed_in(span.first),
            (Cause::Under, Side::Supplier) => size <= 3 && self.noticed_in(span.first),
            (Cause::Over, _) => ascertained && size <= 12,
            (Cause::Stopped, _) => size <= 12 && (ascertained || self.noticed_in(span.first)),
            (Cause::Altered, _) if ascertained => size <= 12,
            (Cause::Altered, _) => size == 3 && self.noticed_in(self.after()),
        }
    }
}
