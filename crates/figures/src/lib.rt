// The figures of an account, each of a type of its own, its limits in its type.
#![tactic(auto)]

pub mod dates;
pub mod line;
pub mod money;
pub mod readings;
pub mod reported;
pub mod row;
pub mod units;
pub mod up_to;
