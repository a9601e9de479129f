// The program that shows why an instance cannot fit: it reads an instance as `plan` does, and writes the page of its conflict.
#![tactic(auto)]

pub mod page;
pub mod program;
