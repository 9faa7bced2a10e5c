// Methods: how units are worked out where no reading counts.
#![tactic(auto)]

pub mod by_test;
pub mod category;
pub mod contract_demand;
pub mod fault;
pub mod finding;
pub mod later_three;
pub mod limits;
pub mod method;
pub mod previous_three;
pub mod reckoning;
pub mod test_meter;
pub mod three_rows;
pub mod uses;
