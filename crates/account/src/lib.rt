// One tenant's account.
#![tactic(auto)]

pub mod account;
pub(crate) mod amounts;
pub mod asking;
pub mod billing;
pub mod correcting;
pub mod estimating;
pub mod holding;
pub mod memory;
pub mod opening;
pub mod paying;
pub mod refusal;
pub(crate) mod sheet;
pub mod sums;
pub mod totals;
