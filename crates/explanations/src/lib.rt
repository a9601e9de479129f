// The two explanations of the disjunctive propagator, written as atoms, and the walks over Θ that find their tasks.
#![tactic(auto)]

pub mod explanations;
pub mod theta;
mod walks;
