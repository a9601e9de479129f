// A task added to the record, or removed.
ghost use Rattle.std.specs.Prelude.{◌≡◌, ◌+◌, ◌<◌, ◌≤◌};
ghost use Rattle.integers.specs.Limits.{TASKS, DURATIONS};
ghost use Rattle.integers.specs.Refused.{number_in};
ghost use Rattle.records.specs.Records.{Lawful, duration_for};
ghost use Rattle.task_changes.specs.Changes.{added, removed, add_number, remove_number, TaskAdded, TaskRemoved};

use integers::limits::{DURATIONS, TASKS};
use integers::refused::Refusal;
use records::record::{DisjunctivePropagator, duration_of, lawful};

// The record after a change, or as it was beside why the change is refused. `TaskAdded` and `TaskRemoved` promise both, so the answer does not hold the record.
#[derive(Clone, Copy)]
pub struct Changed {
    pub record: DisjunctivePropagator,
    pub answer: Result<(), Refusal>,
}

// Why an added task is refused. The stored total of a lawful record is within the limit.
fn add_refusal(record: &DisjunctivePropagator, duration: i32) -> Result<(), Refusal>
    ensures { number_in result ≡ add_number «record».now duration }
{
    if !lawful(record) {
        return Err(Refusal::Record);
    }
    if record.count >= TASKS {
        return Err(Refusal::TaskCount);
    }
    if duration < 1 {
        return Err(Refusal::Duration);
    }
    if DURATIONS - record.total < duration_of(duration) {
        return Err(Refusal::DurationSum);
    }
    Ok(())
}

// A lawful record with one task more, which takes number n.
fn with_task(record: &DisjunctivePropagator, duration: i32) -> DisjunctivePropagator
    requires lawful { Lawful «record».now }
    requires room { «record».now.count < TASKS }
    requires fits { «record».now.total + duration_for duration ≤ DURATIONS }
    ensures { result ≡ added «record».now (duration_for duration) }
{
    let n = record.count;
    let more = duration_of(duration);
    let mut durations = record.durations;
    durations[n] = more;
    DisjunctivePropagator {
        count: n + 1,
        durations,
        total: record.total + more,
    }
}

// The record with one task more, or as it was where the task is refused.
pub fn add(record: DisjunctivePropagator, duration: i32) -> Changed
    ensures { TaskAdded «record» duration result }
{
    let answer = add_refusal(&record, duration);
    if answer.is_err() {
        return Changed { record, answer };
    }
    Changed {
        record: with_task(&record, duration),
        answer,
    }
}

// Why a removal is refused.
fn remove_refusal(record: &DisjunctivePropagator, task: usize) -> Result<(), Refusal>
    ensures { number_in result ≡ remove_number «record».now task }
{
    if !lawful(record) {
        return Err(Refusal::Record);
    }
    if task >= record.count {
        return Err(Refusal::Removed);
    }
    if record.count < 2 {
        return Err(Refusal::TaskCount);
    }
    Ok(())
}

// A lawful record without a task: the numbers above it are one lower, and the last place is no task's.
fn without_task(record: &DisjunctivePropagator, task: usize) -> DisjunctivePropagator
    requires lawful { Lawful «record».now }
    requires there { task < «record».now.count }
    ensures { result ≡ removed «record».now task }
{
    let n = record.count;
    let less = record.durations[task];
    let mut durations = record.durations;
    durations.copy_within(task + 1..n, task);
    durations[n - 1] = 0;
    DisjunctivePropagator {
        count: n - 1,
        durations,
        total: record.total - less,
    }
}

// The record without the task, or as it was where the removal is refused.
pub fn remove(record: DisjunctivePropagator, task: usize) -> Changed
    ensures { TaskRemoved «record» task result }
{
    let answer = remove_refusal(&record, task);
    if answer.is_err() {
        return Changed { record, answer };
    }
    Changed {
        record: without_task(&record, task),
        answer,
    }
}
