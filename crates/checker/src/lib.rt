// The check of a run's reason and of a mirrored pass's reason, and the formula, which is exactly Vilím's.
#![tactic(auto)]

pub mod checker;
mod formula;
mod intervals;
mod mirrored_bounds;
