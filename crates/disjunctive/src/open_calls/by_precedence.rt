// The open calls by precedences, on lent ranges: the pass raises earliest starts in them; one task's bound and its reason are read off them.
ghost use Rattle.precedences.specs.Bounds.{BoundGiven};
ghost use Rattle.precedences.specs.Reasons.{ReasonGiven};
ghost use Rattle.ranges.specs.Bars.{all_bars_are_fit};
ghost use Rattle.ranges.specs.Ranges.{earliests, latests};
ghost use Rattle.promises.specs.PrecedencesLent.{PrecedencesLent};

use crate::taken_starts::{earliest_of, latest_of};
use integers::limits::TASKS;
use integers::refused::Refusal;
use precedences::answers::Precedences;
use ranges::bars::all_bars_fit;
use ranges::range::Range;
use ranges::starts::{starts_with_bars, store_starts, take_apart};
use records::record::DisjunctivePropagator;

// Each earliest start rises to the ect of the tasks that must come before its task, if later, and on to a permitted value. No latest start changes.
#[tactic(auto, unfolding(ranges::specs::TakenApart::taken))]
pub fn precedences(propagator: &DisjunctivePropagator, ranges: &mut [Range]) -> Precedences
    ensures { PrecedencesLent propagator.now ranges.old result ranges.new }
{
    let bars_fit = all_bars_fit(ranges);
    let mut earliest = [0; TASKS];
    let mut latest = [0; TASKS];
    let count = take_apart(ranges, &mut earliest, &mut latest);
    let earliest = &mut earliest[..count];
    let answer = precedences::pass::precedences(*propagator, earliest, &latest[..count], bars_fit);
    store_starts(ranges, earliest);
    answer
}

// The task's bound over the lent ranges, where it is above the earliest start. Nothing lent is changed.
pub fn precedence_bound(
    propagator: &DisjunctivePropagator,
    ranges: &[Range],
    task: usize,
) -> Result<Option<i32>, Refusal>
    ensures { BoundGiven propagator.now (earliests ranges.now) (latests ranges.now)
        (all_bars_are_fit ranges.now) task result }
{
    let taken = starts_with_bars(ranges);
    precedences::bounds::precedence_bound(
        *propagator,
        earliest_of(&taken.starts),
        latest_of(&taken.starts),
        taken.bars_fit,
        task,
    )
}

// Writes the reason of the task's bound over the lent ranges, and answers how many atoms it has.
pub fn precedence_reason(
    propagator: &DisjunctivePropagator,
    ranges: &[Range],
    task: usize,
    reason: &mut [i32],
) -> Result<usize, Refusal>
    ensures { ReasonGiven propagator.now (earliests ranges.now) (latests ranges.now)
        (all_bars_are_fit ranges.now) task reason.old result reason.new }
{
    let taken = starts_with_bars(ranges);
    precedences::reason::precedence_reason(
        *propagator,
        earliest_of(&taken.starts),
        latest_of(&taken.starts),
        taken.bars_fit,
        task,
        reason,
    )
}
