// The program `plan`: its input as numbers, the run, and what is printed, to the byte. Other programs read their input and answer it in the same way.
#![tactic(auto)]

pub mod answerer;
pub mod input;
pub mod inputs;
pub mod lines;
mod plan;
pub mod program;
mod report;
pub mod stdin;
pub mod tasks;
