// A task added to the record or removed, and the stored total after any history.
#![tactic(auto)]

pub mod changes;
pub mod lent;
