// Ranges with barred starts: whether the bars fit, lent ranges taken apart into numbers, and starts stored back into them.
#![tactic(auto)]

pub mod bars;
mod moves;
pub mod range;
pub mod starts;
