// Ascending lists of holes, the values inside a range that are left out of it, and the first and the last value that is no hole.
#![tactic(auto)]

pub mod hole_list;
