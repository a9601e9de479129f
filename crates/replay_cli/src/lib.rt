// The oracle's line protocol over the open calls: a command in a line, and for each the lines of its answer and then `end`.
// What is proved here is that every function is safe and ends; contracts say no more than that needs. What the lines say is tested.
#![tactic(auto)]

mod check_commands;
mod commands;
mod conflict_commands;
mod range_commands;
mod range_lists;
mod record_commands;
mod run_commands;
mod schedule_commands;
pub mod serving;
