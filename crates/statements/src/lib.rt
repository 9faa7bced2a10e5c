// The statement of an account: the answers to a text of events, the journal and the sums.
#![tactic(auto)]

pub mod drafts;
mod entries;
pub mod refused;
pub mod statement;
mod writing;
