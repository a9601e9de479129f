// The precedences that the ranges show: the tasks before a task, the pass that raises earliest starts, one bound and its reason.
#![tactic(auto)]

pub mod answers;
pub mod bounds;
pub mod pass;
mod predecessors;
mod range_moments;
pub mod reason;
