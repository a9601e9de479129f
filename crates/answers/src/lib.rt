// The C structs that carry each call's answer, and the functions that fill them from the enums. Different answers give different structs.
#![tactic(auto)]

pub mod added_calls;
pub mod source_calls;
