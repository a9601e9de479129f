// Fixed schedules, in which each range has one start and no two tasks overlap: their tests, and the tasks by start.
#![tactic(auto)]

mod order;
pub mod parameters;
pub mod refusals;
