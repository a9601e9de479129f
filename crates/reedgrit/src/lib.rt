// The exported calls, for C and Rust: the open calls on lent ranges, the post reader, both checks, the queries of a state.
// Each answers a struct of the crate `answers`; a lent slice is passed as a pointer and a length.
#![tactic(auto)]

pub mod added_calls;
mod checks;
mod posts;
pub mod source_calls;
mod states;
