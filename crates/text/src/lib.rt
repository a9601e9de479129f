// Whole numbers read from bytes and written as decimal text, and the words of a line.
#![tactic(auto)]

pub mod reading;
pub mod words;
pub mod writing;
