// The disjunctive propagator, the run as code: tests, sorts, tree and `edge_finding`. It leaves the trace of the run's definition.
#![tactic(auto)]

pub mod disjunctive_propagator;
mod task_arrays;
