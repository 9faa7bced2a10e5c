// A finding laid over the rows of a sheet.
ghost use Rattle.std.specs.Prelude.{◌≡◌, ◌≤◌, length, true};
ghost use Rattle.rules.specs.Subject.{Method};
ghost use Rattle.rules.specs.Laid.{rewritten};
ghost use Rattle.rules.specs.Questions.{is_billed, sorts_right, corrected_fit};
ghost use Rattle.method.specs.Uses.{finding_of};
ghost use Rattle.account.specs.Few.{six_at_most};
ghost use Rattle.account.specs.Rows.{covered, periods};

use figures::row::Row;
use method::finding::{Cause, Finding, Span};

/// A finding, and the rows that its questions are asked of, as many as a sheet holds. Its span may be any, since asking is what
/// tells.
#[derive(Clone, Copy)]
pub(crate) struct Found<'a> {
    pub finding: Finding,
    pub rows: &'a [Row],
    ghost few: { length rows.now ≤ 120 },
    ghost runs: { six_at_most 0 (periods rows.now) ≡ true },
}

impl<'a> Found<'a> {
    /// The rows of its span.
    pub(crate) fn covered(&self) -> &'a [Row]
        ensures { result.now ≡ covered (finding_of self.now.finding) self.now.rows.now }
    {
        let places = self.finding.span.places(self.rows.len());
        &self.rows[places.start..places.end]
    }

    /// The finding over the first six rows of a run, where a reading is absent: no later row of a run is estimated, so a correction
    /// rewrites the same rows, and however long the run is, they are soon found.
    pub(crate) fn narrowed(self) -> Found<'a>
        requires billed { is_billed (finding_of self.finding) (periods self.rows.now) ≡ true }
        requires sorts { sorts_right (finding_of self.finding) (periods self.rows.now) ≡ true }
        ensures rewritten { rewritten (finding_of result.finding) 0 (periods result.rows.now) ≡ rewritten (finding_of self.entry.finding) 0 (periods self.entry.rows.now) }
        ensures fits { (m : Method) → corrected_fit (finding_of result.finding) m (periods result.rows.now) ≡ corrected_fit (finding_of self.entry.finding) m (periods self.entry.rows.now) }
    {
        let Finding {
            cause: Cause::Absent,
            span,
            ..
        } = self.finding
        else {
            return self;
        };
        if span.last - span.first < 6 {
            return self;
        }
        let span = Span {
            first: span.first,
            last: span.first + 5,
        };
        Found {
            finding: Finding {
                span,
                ..self.finding
            },
            rows: self.rows,
        }
    }
}
