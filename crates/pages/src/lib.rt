// The page: a fixed schedule as text, one line for each task.
#![tactic(auto)]

pub mod lines;
pub mod page;
