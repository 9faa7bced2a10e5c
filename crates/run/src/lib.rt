// Whole runs of an account, from its opening to its end.
#![tactic(auto)]

pub mod answer;
pub mod any_method;
pub mod ask;
pub mod chosen;
pub mod keep;
pub mod request;
pub mod run;
