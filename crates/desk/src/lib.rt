// One line of the text served: it is read, its method made, and its call put to the account.
#![tactic(auto)]

pub mod fault;
pub mod serving;
