// Figures that are kept: each in its unit, and no larger than its limit.
ghost use Rattle.std.specs.Prelude.{◌≡◌, ◌≤◌, ⊤, true, false, Ok, Err, nat_le};

use crate::reported::{Figure, OutOfLimits};
use std::alloc::AllocError;

/// A figure that is at most `MOST`.
pub struct UpTo<F: Figure, const MOST: u64> {
    pub figure: F,
    ghost ok: { F.size figure ≤ MOST },
}

// by hand: `Clone` is not derived over a ghost field where the struct is generic
impl<F: Figure, const MOST: u64> Clone for UpTo<F, MOST> {
    ghost is_clone = { λ s copy. copy ≡ s };

    ghost is_infallible = { λ _. ⊤ };

    fn clone(&self) -> Result<Self, AllocError> {
        Ok(*self)
    }
}

impl<F: Figure, const MOST: u64> Copy for UpTo<F, MOST> {}

impl<F: Figure, const MOST: u64> UpTo<F, MOST> {
    /// The reported figure, where it is in its limit. No `TryFrom`: for every `F` it would overlap the library's own.
    pub fn new(figure: F) -> Result<UpTo<F, MOST>, OutOfLimits>
        ensures { elim result [ Ok u ↦ (nat_le (F.size figure) MOST ≡ true) × (u.figure ≡ figure) | Err _ ↦ nat_le (F.size figure) MOST ≡ false ] }
    {
        if figure.size() > MOST {
            return Err(OutOfLimits);
        }
        Ok(UpTo { figure })
    }
}
