// The page of a conflict: its text, with a line for each of its tasks and two sentences that add them up.
#![tactic(auto)]

mod lines;
pub mod page;
mod sentences;
