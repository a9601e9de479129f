// The open calls on lent data: a record, and a slice of ranges, one for each task. Here are the run and the mirrored pass, which
// change the ranges, and the overload test, which does not. Below are the calls by precedences, those of conflicts and those on a fixed schedule.
// The core takes the record by value and the starts as slices of numbers. Here the ranges are taken apart for it, and what it leaves is stored back.
// The run is lent the record as `&mut`, as the source's is, and stores the record that its core returns. The other calls are lent the record as `&`.
pub mod by_precedence;
pub mod of_conflicts;
pub mod of_fixed_schedules;

ghost use Rattle.overload_test.specs.Tested.{OverloadTested};
ghost use Rattle.ranges.specs.Bars.{all_bars_are_fit};
ghost use Rattle.ranges.specs.Ranges.{earliests, latests};
ghost use Rattle.promises.specs.RanLent.{RanLent};
ghost use Rattle.promises.specs.RanMirroredLent.{RanMirroredLent};

use crate::taken_starts::{earliest_of, latest_of};
use integers::limits::TASKS;
use integers::refused::Refusal;
use mirrored::mirrored_propagator::propagate_mirrored;
use propagator::disjunctive_propagator::propagate;
use ranges::bars::all_bars_fit;
use ranges::range::Range;
use ranges::starts::{starts_with_bars, store_latest, store_starts, take_apart};
use records::record::DisjunctivePropagator;
use runs::outcome::{Finished, Outcome};

// Earliest starts are raised in the ranges; no latest start changes. The record becomes the one that the core returns, which is equal to it.
// Beside the outcome stands the count of leaf changes.
#[tactic(auto, unfolding(ranges::specs::TakenApart::taken))]
pub fn run(
    propagator: &mut DisjunctivePropagator,
    ranges: &mut [Range],
    posts: &mut [i32],
    atoms: &mut [i32],
) -> Finished
    ensures { RanLent propagator.old ranges.old posts.old atoms.old result.outcome result.changes
        propagator.new ranges.new posts.new atoms.new }
{
    let bars_fit = all_bars_fit(ranges);
    let mut earliest = [0; TASKS];
    let mut latest = [0; TASKS];
    let count = take_apart(ranges, &mut earliest, &mut latest);
    let earliest = &mut earliest[..count];
    let ran = propagate(
        *propagator,
        earliest,
        &latest[..count],
        bars_fit,
        posts,
        atoms,
    );
    store_starts(ranges, earliest);
    *propagator = ran.record;
    Finished {
        outcome: ran.outcome,
        changes: ran.changes,
    }
}

// Latest starts fall in the ranges; no earliest start changes.
#[tactic(auto, unfolding(ranges::specs::TakenApart::taken))]
pub fn run_mirrored(
    propagator: &DisjunctivePropagator,
    ranges: &mut [Range],
    posts: &mut [i32],
    atoms: &mut [i32],
) -> Outcome
    ensures { RanMirroredLent propagator.now ranges.old posts.old atoms.old result ranges.new
        posts.new atoms.new }
{
    let bars_fit = all_bars_fit(ranges);
    let mut earliest = [0; TASKS];
    let mut latest = [0; TASKS];
    let count = take_apart(ranges, &mut earliest, &mut latest);
    let latest = &mut latest[..count];
    let outcome = propagate_mirrored(
        *propagator,
        &earliest[..count],
        latest,
        bars_fit,
        posts,
        atoms,
    );
    store_latest(ranges, latest);
    outcome
}

// Whether some set of the record's tasks overloads in these ranges. Nothing lent is changed.
pub fn overload_test(
    propagator: &DisjunctivePropagator,
    ranges: &[Range],
) -> Result<Option<usize>, Refusal>
    ensures { OverloadTested propagator.now (earliests ranges.now) (latests ranges.now)
        (all_bars_are_fit ranges.now) result }
{
    let taken = starts_with_bars(ranges);
    overload_test::overload_test(
        *propagator,
        earliest_of(&taken.starts),
        latest_of(&taken.starts),
        taken.bars_fit,
    )
}
