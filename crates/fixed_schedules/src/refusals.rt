// Why a schedule that is not fixed is refused, and the tasks by start of one that is.
ghost use Rattle.fixed_schedules.specs.FixedSchedules.{fixed_number};
ghost use Rattle.fixed_schedules.specs.Neighbours.{Tested};

use crate::order::{neighbours_apart, one_start, tasks_by_start};
use integers::limits::TASKS;
use integers::refused::Refusal;
use records::record::DisjunctivePropagator;
use records::refusals::range_refusal;

// The tasks by start, in the first places, or why the schedule is refused: for its record and its ranges, then as a range has more than one start, or two tasks
// overlap. The order is that of the test, so that a schedule is sorted once.
pub fn fixed_order(
    record: &DisjunctivePropagator,
    earliest: &[i32],
    latest: &[i32],
) -> Result<[usize; TASKS], Refusal>
    ensures { Tested earliest.now (fixed_number «record».now earliest.now latest.now) result }
{
    range_refusal(record, earliest, latest)?;
    if !one_start(earliest, latest) {
        return Err(Refusal::Schedule);
    }
    let order = tasks_by_start(earliest);
    if !neighbours_apart(&order, earliest, &record.durations) {
        return Err(Refusal::Schedule);
    }
    Ok(order)
}
