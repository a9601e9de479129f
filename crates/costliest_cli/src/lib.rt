// The program that writes the costliest instance of a size, to the byte, as `plan` reads it.
#![tactic(auto)]

pub mod program;
pub mod size;
pub mod tasks;
