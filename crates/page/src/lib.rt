// A page lent by the caller: what is written on it, piece by piece, and zeros after it.
#![tactic(auto)]

mod digits;
mod draft;
mod kept;
mod writes;

pub use kept::{Draft, Page};
pub use writes::Full;
