// The stretch of a given length that the tasks of a fixed schedule cover most.
#![tactic(auto)]

pub mod answer;
mod covering;
pub mod stretch;
