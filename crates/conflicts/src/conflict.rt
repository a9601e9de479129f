// The call.
ghost use Rattle.conflicts.specs.Conflicts.{ConflictFound};

use crate::answer::{Conflict, Found, no_conflict};
use crate::late_task::late_task;
use crate::overloading::overloading;
use overload_test::overload_test;
use overload_test::task_moments::task_moments;
use records::record::DisjunctivePropagator;

// Why the record's tasks cannot fit into these ranges, whose bars fit if `bars_fit`.
pub fn conflict(
    record: DisjunctivePropagator,
    earliest: &[i32],
    latest: &[i32],
    bars_fit: bool,
) -> Conflict
    ensures { ConflictFound «record» earliest.now latest.now bars_fit result }
{
    match overload_test(record, earliest, latest, bars_fit) {
        Ok(Some(k)) => overloading(&task_moments(&record, earliest, latest), k),
        Ok(None) => late_task(record, earliest, latest),
        Err(why) => no_conflict(Found::Refused(why)),
    }
}
