// The propagator's record: which records are lawful, its creation, and the numbers that refuse a record and its ranges.
#![tactic(auto)]

pub mod record;
pub mod refusals;
