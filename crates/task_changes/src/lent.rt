// The changes on a record that a caller lends.
ghost use Rattle.task_changes.specs.Changes.{AddedLent, RemovedLent};

use integers::refused::Refusal;
use records::record::DisjunctivePropagator;

// The record becomes the one with a task more, or stays unchanged.
pub fn add(propagator: &mut DisjunctivePropagator, duration: i32) -> Result<(), Refusal>
    ensures { AddedLent propagator.old duration result propagator.new }
{
    let changed = crate::changes::add(*propagator, duration);
    *propagator = changed.record;
    changed.answer
}

// The record becomes the one without the task, or stays unchanged.
pub fn remove(propagator: &mut DisjunctivePropagator, task: usize) -> Result<(), Refusal>
    ensures { RemovedLent propagator.old task result propagator.new }
{
    let changed = crate::changes::remove(*propagator, task);
    *propagator = changed.record;
    changed.answer
}
