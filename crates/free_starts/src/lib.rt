// The least start from a moment on at which a further task overlaps no task of a fixed schedule.
#![tactic(auto)]

ghost use Rattle.std.specs.Prelude.{◌+◌, ◌≤◌, length};
ghost use Rattle.integers.specs.Moments.{zero_at};
ghost use Rattle.fixed_schedules.specs.Neighbours.{in_moments, Tested};
ghost use Rattle.free_starts.specs.FreeStarts.{LATEST, EarliestFree, free_number, FreeStartAnswered};
ghost use Rattle.free_starts.specs.StartMoments.{Searchable};

use fixed_schedules::parameters::{length_fits, moment_fits};
use fixed_schedules::refusals::fixed_order;
use integers::limits::TASKS;
use integers::moments::{moment_of, moments_of, start_of};
use integers::numbers::nat_of;
use integers::refused::Refusal;
use records::record::DisjunctivePropagator;

// The tasks by start, or why a call is refused: for its schedule, and then for its duration or its moment.
fn free_order(
    record: &DisjunctivePropagator,
    earliest: &[i32],
    latest: &[i32],
    t: i32,
    d: i32,
) -> Result<[usize; TASKS], Refusal>
    ensures { Tested earliest.now (free_number «record».now earliest.now latest.now t d) result }
{
    let order = fixed_order(record, earliest, latest)?;
    if !length_fits(d) || !moment_fits(t) {
        return Err(Refusal::Question);
    }
    Ok(order)
}

// One pass over the tasks by start: what does not end by the next task's start has to wait for that task's end.
fn first_free<'a>(
    order: &'a [usize],
    starts: &'a [u32; TASKS],
    durations: &'a [u32; TASKS],
    t: u32,
    d: u32,
) -> u32
    requires { Searchable order.now starts.now durations.now t d }
    ensures { EarliestFree (in_moments (length order.now) starts.now durations.now) t d result
        × (result ≤ zero_at + LATEST) }
{
    let mut free = t;
    for &task in order {
        if free + d <= starts[task] {
            return free;
        }
        free = free.max(starts[task] + durations[task]);
    }
    free
}

// The least start at or after t at which a further task of duration d overlaps none, or why the call is refused.
pub fn free_start(
    record: DisjunctivePropagator,
    earliest: &[i32],
    latest: &[i32],
    t: i32,
    d: i32,
) -> Result<i32, Refusal>
    ensures { FreeStartAnswered «record» earliest.now latest.now t d result }
{
    let order = free_order(&record, earliest, latest, t, d)?;
    let mut starts = [0u32; TASKS];
    moments_of(&mut starts, earliest);
    let from = moment_of(t);
    let length = nat_of(d);
    let by_start = &order[..record.count];
    let free = first_free(by_start, &starts, &record.durations, from, length);
    Ok(start_of(free))
}
