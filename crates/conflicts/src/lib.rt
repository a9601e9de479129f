// Why the tasks cannot fit, in the ranges' own numbers: a set that overloads its span; or, where none does, a task whose bound passes its latest start, with
// the two sets that a person can add up.
#![tactic(auto)]

pub mod answer;
pub mod conflict;
mod late_task;
mod overloading;
mod spans;
mod suffixes;
