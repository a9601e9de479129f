// The lines of the oracle's protocol: a line read and taken apart, what is said of numbers, posts and atoms, and the commands on the variable state.
// What is proved here is that every function is safe and ends; contracts say no more than that needs. What the lines say is tested.
#![tactic(auto)]

pub mod input;
pub mod lines;
pub mod parts;
pub mod posts;
pub mod state_commands;
pub mod words;
