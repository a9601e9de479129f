// The mirrored pass, for latest starts: a run in mirrored time, whose words are turned back into the caller's time.
#![tactic(auto)]

pub mod mirrored_propagator;
mod mirrored_time;
