// One task's bound, where it is above the task's earliest start.
ghost use Rattle.std.specs.Prelude.{◌≡◌, ◌<◌};
ghost use Rattle.integers.specs.Refused.{number_in};
ghost use Rattle.scheduling.specs.Scheduling.{natural, Tasks};
ghost use Rattle.precedences.specs.PredecessorArrays.{HoldsRanges};
ghost use Rattle.precedences.specs.ReasonArrays.{BoundLeft};
ghost use Rattle.precedences.specs.Bounds.{bound_number, BoundGiven};

use crate::predecessors::bound_of;
use crate::range_moments::{RangeMoments, range_moments};
use integers::moments::start_of;
use integers::refused::Refusal;
use records::record::DisjunctivePropagator;
use records::refusals::input_refusal;

// Task i's bound, where it is above the earliest start.
fn bound_above(m: &RangeMoments, i: usize) -> Option<i32>
    requires { (J : Tasks natural) × HoldsRanges J m.now × (i < m.now.count) }
    ensures { (J : Tasks natural) → HoldsRanges J m.now → BoundLeft J i result }
{
    let start = m.est[i];
    let bound = bound_of(m, i)?;
    if bound <= start {
        return None;
    }
    Some(start_of(bound))
}

// Why the call is refused: for the record, its ranges and their bars, and then for the task.
#[tactic(auto, unfolding(integers::specs::Tests::refusal))]
pub(crate) fn bound_refusal(
    record: &DisjunctivePropagator,
    earliest: &[i32],
    latest: &[i32],
    bars_fit: bool,
    task: usize,
) -> Result<(), Refusal>
    ensures { number_in result ≡ bound_number «record».now earliest.now latest.now bars_fit task }
{
    input_refusal(record, earliest, latest, bars_fit)?;
    if task >= record.count {
        return Err(Refusal::Task);
    }
    Ok(())
}

// The task's bound over these ranges, where it is above the earliest start. `bars_fit` says whether the ranges' bars fit.
pub fn precedence_bound(
    record: DisjunctivePropagator,
    earliest: &[i32],
    latest: &[i32],
    bars_fit: bool,
    task: usize,
) -> Result<Option<i32>, Refusal>
    ensures { BoundGiven «record» earliest.now latest.now bars_fit task result }
{
    bound_refusal(&record, earliest, latest, bars_fit, task)?;
    let m = range_moments(&record, earliest, latest);
    Ok(bound_above(&m, task))
}
