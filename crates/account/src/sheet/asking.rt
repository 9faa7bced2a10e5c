// The questions of a correction about what it lays down.
ghost use Rattle.std.specs.Prelude.{◌≡◌, ◌≤◌, true, length};
ghost use Rattle.rules.specs.Laid.{rewritten};
ghost use Rattle.rules.specs.Questions.{corrected_fit};
ghost use Rattle.method.specs.Uses.{finding_of};
ghost use Rattle.account.specs.Rows.{periods};

use crate::sheet::found::Found;
use crate::sheet::laying::{NONE, rewrites_sort, weigh, wholes_fit};
use method::method::Method;

impl<'a> Found<'a> {
    /// How many rows a correction rewrites.
    pub(crate) fn count(&self) -> usize
        ensures value { result ≡ length (rewritten (finding_of self.now.finding) 0 (periods self.now.rows.now)) }
        ensures few { result ≤ length self.now.rows.now }
    {
        let cause = self.finding.cause;
        self.covered()
            .iter()
            .filter(|row| rewrites_sort(cause, row.sort))
            .count()
    }

    /// Whether the rows that a correction rewrites have shares that keep the limit all together, and so each alone.
    fn fit_together<M: Method>(&self, m: &M) -> bool
        ensures { result ≡ true → corrected_fit (finding_of self.now.finding) (M.Method.meaning m.now) (periods self.now.rows.now) ≡ true }
    {
        let mut weights = NONE.weights;
        let rows = self.covered();
        for row in rows {
            if rewrites_sort(self.finding.cause, row.sort) {
                weights = weights.plus(weigh(m, row));
            }
        }
        wholes_fit(m, weights)
    }

    /// Whether each share of the rows that a correction rewrites keeps the limit.
    fn each_fits<M: Method>(&self, m: &M) -> bool
        ensures { result ≡ corrected_fit (finding_of self.now.finding) (M.Method.meaning m.now) (periods self.now.rows.now) }
    {
        let mut sharing = NONE;
        let rows = self.covered();
        for row in rows {
            if rewrites_sort(self.finding.cause, row.sort) {
                let shares = sharing.next(m, row);
                if !shares.fit() {
                    return false;
                }
            }
        }
        true
    }

    /// Whether every share of the rows that a correction rewrites keeps the limit. The rows are asked together first, since that
    /// needs no division.
    pub(crate) fn shares_fit<M: Method>(&self, m: &M) -> bool
        ensures { result ≡ corrected_fit (finding_of self.now.finding) (M.Method.meaning m.now) (periods self.now.rows.now) }
    {
        self.fit_together(m) || self.each_fits(m)
    }
}
