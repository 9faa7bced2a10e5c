// What a method lays down for one row.
ghost use Rattle.std.specs.Prelude.{◌≡◌, ℕ, ◌+◌, ◌-◌, ◌*◌, ◌/◌, ◌^◌, ◌<◌, ◌≤◌, nat_le};
ghost use Rattle.rules.specs.Subject.{days, day_units, peak_units, day_weight, peak_weight};
ghost use Rattle.rules.specs.Sharing.{whole as whole_of, share as share_of};
ghost use Rattle.rules.specs.Laid.{rewrites_sort};
ghost use Rattle.figures.specs.View.{regs, sort_of, period_seen};
ghost use Rattle.method.specs.Uses.{cause_of};
ghost use Rattle.account.specs.Rows.{pair_fits};
ghost use Rattle.account.specs.Weighing.{Weighed, Light, Whole};

use figures::reported::Kwh;
use figures::row::{Row, Sort};
use figures::units::{Register, Registers, Units};
use method::finding::Cause;
use method::method::Method;

/// What rows weigh for each energy register. A weight has no unit: some methods weigh rows by their days, some by their units.
#[derive(Clone, Copy)]
pub(crate) struct Weights {
    pub day: u64,
    pub peak: u64,
}

/// Units of each energy register: the shares of a row, or what several rows get together.
#[derive(Clone, Copy)]
pub(crate) struct Energy {
    pub day: Kwh,
    pub peak: Kwh,
}

impl Weights {
    /// The weights with those of one row more.
    pub(crate) fn plus(self, w: Weights) -> Weights
        requires { (self.day + w.day < 2 ^ 64) × (self.peak + w.peak < 2 ^ 64) }
        ensures { (result.day ≡ self.day + w.day) × (result.peak ≡ self.peak + w.peak) }
    {
        Weights {
            day: self.day + w.day,
            peak: self.peak + w.peak,
        }
    }
}

impl Energy {
    /// Whether both keep the limit of a share: a yes or no, since a correction asks this of all its rows before it lays any down.
    pub(crate) fn fit(self) -> bool
        ensures { result ≡ pair_fits self.day.0 self.peak.0 }
    {
        self.day.0 <= 1_000_000 && self.peak.0 <= 1_000_000
    }
}

/// Whether a correction for the cause rewrites the rows of its span that are of this sort.
pub(crate) fn rewrites_sort(c: Cause, s: Sort) -> bool
    ensures { result ≡ rewrites_sort (cause_of c) (sort_of s) }
{
    c != Cause::Absent || s == Sort::Estimated
}

/// The whole units that rows of this weight get together.
fn whole(upper: u64, lower: u64, weight: u64) -> Kwh
    requires { (1 ≤ lower) × (weight * upper ≤ 1200000000000000000) }
    ensures { result.0 ≡ whole_of upper lower weight }
{
    Kwh(weight * upper / lower)
}

/// Whether that keeps the limit of a share: asked by products, since a division costs more than both.
fn whole_fits(upper: u64, lower: u64, weight: u64) -> bool
    requires { (1 ≤ lower) × (lower ≤ 1000000000) × (weight * upper ≤ 1200000000000000000) }
    ensures { result ≡ nat_le (whole_of upper lower weight) 1000000 }
{
    weight * upper < lower * 1_000_001
}

/// The weights of a row.
pub(crate) fn weigh<M: Method>(m: &M, row: &Row) -> Weights
    ensures day { result.day ≡ day_weight (M.Method.meaning m.now) (period_seen row.now) }
    ensures peak { result.peak ≡ peak_weight (M.Method.meaning m.now) (period_seen row.now) }
    ensures light { Light (M.Method.meaning m.now) result.day result.peak }
{
    let seen = row.metered();
    Weights {
        day: m.weight(Register::Day, seen),
        peak: m.weight(Register::Peak, seen),
    }
}

/// The whole units that rows of these weights get together.
pub(crate) fn wholes<M: Method>(m: &M, w: Weights) -> Energy
    requires { Weighed (M.Method.meaning m.now) 120 w.day w.peak }
    ensures day { result.day.0 ≡ whole_of ((M.Method.meaning m.now).upper day_units) (M.Method.meaning m.now).lower w.day }
    ensures peak { result.peak.0 ≡ whole_of ((M.Method.meaning m.now).upper peak_units) (M.Method.meaning m.now).lower w.peak }
{
    let lower = m.lower();
    Energy {
        day: whole(m.upper(Register::Day), lower, w.day),
        peak: whole(m.upper(Register::Peak), lower, w.peak),
    }
}

/// Whether the whole units that rows of these weights get together keep the limit of a share.
pub(crate) fn wholes_fit<M: Method>(m: &M, w: Weights) -> bool
    requires { Weighed (M.Method.meaning m.now) 120 w.day w.peak }
    ensures { result ≡ pair_fits (whole_of ((M.Method.meaning m.now).upper day_units) (M.Method.meaning m.now).lower w.day) (whole_of ((M.Method.meaning m.now).upper peak_units) (M.Method.meaning m.now).lower w.peak) }
{
    let lower = m.lower();
    whole_fits(m.upper(Register::Day), lower, w.day)
        && whole_fits(m.upper(Register::Peak), lower, w.peak)
}

/// The rows that a method has shared over so far: what they weigh, and the whole units that they get together.
#[derive(Clone, Copy)]
pub(crate) struct Sharing {
    pub weights: Weights,
    pub wholes: Energy,
}

/// No rows.
pub(crate) const NONE: Sharing = Sharing {
    weights: Weights { day: 0, peak: 0 },
    wholes: Energy {
        day: Kwh(0),
        peak: Kwh(0),
    },
};

impl Sharing {
    /// The shares of one row more.
    pub(crate) fn next<M: Method>(&mut self, m: &M, row: &Row) -> Energy
        requires before { Weighed (M.Method.meaning m.now) 119 self.old.weights.day self.old.weights.peak }
        requires wholes { Whole (M.Method.meaning m.now) self.old }
        ensures day { result.day.0 ≡ share_of ((M.Method.meaning m.now).upper day_units) (M.Method.meaning m.now).lower self.old.weights.day (day_weight (M.Method.meaning m.now) (period_seen row.now)) }
        ensures peak { result.peak.0 ≡ share_of ((M.Method.meaning m.now).upper peak_units) (M.Method.meaning m.now).lower self.old.weights.peak (peak_weight (M.Method.meaning m.now) (period_seen row.now)) }
        ensures day_more { self.new.weights.day ≡ self.old.weights.day + day_weight (M.Method.meaning m.now) (period_seen row.now) }
        ensures peak_more { self.new.weights.peak ≡ self.old.weights.peak + peak_weight (M.Method.meaning m.now) (period_seen row.now) }
        ensures light { Light (M.Method.meaning m.now) (day_weight (M.Method.meaning m.now) (period_seen row.now)) (peak_weight (M.Method.meaning m.now) (period_seen row.now)) }
        ensures wholes { Whole (M.Method.meaning m.now) self.new }
    {
        let before = self.wholes;
        self.weights = self.weights.plus(weigh(m, row));
        self.wholes = wholes(m, self.weights);
        Energy {
            day: Kwh(self.wholes.day.0 - before.day.0),
            peak: Kwh(self.wholes.peak.0 - before.peak.0),
        }
    }
}

/// The shares of a row alone.
pub(crate) fn alone<M: Method>(m: &M, row: &Row) -> Energy
    ensures day { result.day.0 ≡ share_of ((M.Method.meaning m.now).upper day_units) (M.Method.meaning m.now).lower 0 (day_weight (M.Method.meaning m.now) (period_seen row.now)) }
    ensures peak { result.peak.0 ≡ share_of ((M.Method.meaning m.now).upper peak_units) (M.Method.meaning m.now).lower 0 (peak_weight (M.Method.meaning m.now) (period_seen row.now)) }
{
    wholes(m, weigh(m, row))
}

/// What the method lays down for a row, its shares given.
pub(crate) fn lay<M: Method>(m: &M, s: Energy, row: &Row) -> Registers
    requires { (s.day.0 ≤ 1000000) × (s.peak.0 ≤ 1000000) }
    ensures { regs result ≡ record { day = s.day.0; peak = s.peak.0; demand = (M.Method.meaning m.now).demand (days (period_seen row.now)) (regs row.now.recorded) } }
{
    let demand = m.demand(row.metered());
    Registers {
        day: Units { figure: s.day },
        peak: Units { figure: s.peak },
        demand,
    }
}
