// Loan charges: the cost of each late task of a fixed schedule, by a printed tariff.
#![tactic(auto)]

pub mod answer;
pub mod charging;
mod rates;
mod refusals;
