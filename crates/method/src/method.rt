// What a method is.
ghost use Rattle.std.specs.Prelude.{◌≡◌, Bool, ◌&&◌};
ghost use Rattle.rules.specs.Subject.{Method as Meaning, Use as Purpose};
ghost use Rattle.figures.specs.View.{regs, register_of};
ghost use Rattle.method.specs.declared.uses.Uses.{Uses as Named};
ghost use Rattle.method.specs.Uses.{use_of, named_in};

use crate::finding::{Span, Use};
use crate::uses::Uses;
use figures::row::Recorded;
use figures::units::{Demand, Register};

/// A method gives each row a weight, and the units N × weight ÷ D are shared over the rows by it: N is the upper number,
/// D the lower. Weights and demands rest on a row's days and recorded registers alone. Methods that answer alike each say so in
/// a line: a default here could not be proved, since what is right is said by the meaning of each.
pub trait Method {
    ghost CAUSES: { Named };

    /// The uses that the method may serve, once and for all.
    const CAUSES: Uses;

    ghost meaning: { Self → Meaning };

    fn upper(&self, k: Register) -> u64
        ensures { result ≡ (meaning self.now).upper (register_of k) };

    fn lower(&self) -> u64
        ensures { result ≡ (meaning self.now).lower };

    fn weight(&self, k: Register, row: Recorded) -> u64
        ensures { result ≡ (meaning self.now).weight (register_of k) row.days.count (regs row.registers) };

    fn demand(&self, row: Recorded) -> Demand
        ensures { result.figure.0 ≡ (meaning self.now).demand row.days.count (regs row.registers) };

    fn fits(&self, u: Use, span: Span) -> bool
        ensures { result ≡ (meaning self.now).fits (use_of u) span.first span.last };

    /// The uses that it names are those of its meaning.
    ghost tied: { (m : Self) (u : Purpose) → named_in CAUSES u ≡ (meaning m).serves u };
}

/// Whether the method names the use and fits the span.
pub fn may_serve<M: Method>(m: &M, u: Use, span: Span) -> bool
    ensures { result ≡ ((M.Method.meaning m.now).serves (use_of u) && (M.Method.meaning m.now).fits (use_of u) span.first span.last) }
{
    M::CAUSES.has(u) && m.fits(u, span)
}
