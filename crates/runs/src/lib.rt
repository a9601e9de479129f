// The run as a function on values, and the proof of demand 3 for it. Its only code are the types of a run's outcome.
#![tactic(auto)]

pub mod outcome;
