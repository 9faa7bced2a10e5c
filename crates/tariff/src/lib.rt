// Tariffs: what a supplier charges.
#![tactic(auto)]

pub mod by_demand;
pub mod changeover;
pub mod hotel;
pub mod plain;
pub mod rates;
pub mod tariff;
pub mod time_of_day;
