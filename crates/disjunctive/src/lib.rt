// The open calls, all in one place, with the types of what each takes and answers; none has a `requires`.
// On a record: creation, a task added or removed.
// On a record and ranges: the run, the mirrored pass, the pass by precedences, one task's bound and its reason, the overload test, the conflict and its page.
// On a fixed schedule: the page, the charges, the earliest free start, the busiest stretch.
// Each of these that takes ranges has a form with plain parameters in `by_value`.
// On words: the post reader, the check, the mirrored check, and the calls of the variable state.
#![tactic(auto)]

pub mod by_value;
pub mod open_calls;
mod taken_starts;

pub use crate::open_calls::by_precedence::{precedence_bound, precedence_reason, precedences};
pub use crate::open_calls::of_conflicts::{conflict, conflict_page};
pub use crate::open_calls::of_fixed_schedules::{busiest_stretch, charges, free_start, page};
pub use crate::open_calls::{overload_test, run, run_mirrored};
pub use busiest_stretch::answer::Stretch;
pub use charges::answer::Charges;
pub use checker::checker::{Verdict, check, check_mirrored};
pub use checking::domain::Domain;
pub use checking::int_ext::IntExt;
pub use checking::variable_state::{Application, Applied, VariableState};
pub use conflicts::answer::{Conflict, Found, Work};
pub use integers::refused::Refusal;
pub use post_words::{post_number, post_reason};
pub use precedences::answers::Precedences;
pub use ranges::range::Range;
pub use records::record::{Created, DisjunctivePropagator, create};
pub use runs::outcome::{Finished, Outcome};
pub use task_changes::lent::{add, remove};
