// Whole numbers for the prover, moments, orders and the stable sort, lists of tests, limits and refusal numbers.
#![tactic(auto)]

pub mod limits;
pub mod moments;
pub mod numbers;
pub mod refused;
