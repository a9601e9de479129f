// Atoms as words, domains with holes, the variable state, and the bounds that it leaves to starts; over i32, as in the source.
#![tactic(auto)]

pub mod atomic_constraint;
pub mod bound_words;
pub mod domain;
pub mod int_ext;
pub mod prepared_bounds;
pub mod start_bounds;
pub mod variable_state;
