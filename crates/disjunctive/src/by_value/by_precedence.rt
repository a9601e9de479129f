// The calls by precedences, with plain parameters.
ghost use Rattle.precedences.specs.Bounds.{BoundGiven};
ghost use Rattle.precedences.specs.Reasons.{ReasonGiven};
ghost use Rattle.ranges.specs.Bars.{all_bars_are_fit};
ghost use Rattle.ranges.specs.Ranges.{earliests, latests};
ghost use Rattle.promises.specs.PrecedencesLent.{PrecedencesLent};
ghost use Rattle.disjunctive.specs.GivenRanges.{given, StoredIn};

use crate::by_value::{RANGES, Ranges};
use crate::open_calls::by_precedence;
use integers::refused::Refusal;
use precedences::answers::Precedences;
use ranges::range::Range;
use records::record::DisjunctivePropagator;

// What the pass answers, and the ranges that it leaves.
#[derive(Clone, Copy)]
pub struct RanPrecedences {
    pub answer: Precedences,
    pub ranges: [Range; RANGES],
}

// The pass by precedences.
#[tactic(auto, unfolding(crate::specs::GivenRanges::lent_of))]
pub fn precedences(record: DisjunctivePropagator, ranges: Ranges) -> RanPrecedences
    ensures { StoredIn ranges result.ranges (λ ys ys'. PrecedencesLent «record» ys result.answer ys') }
{
    let n = ranges.lent();
    let mut kept = ranges.ranges;
    let answer = by_precedence::precedences(&record, &mut kept[..n]);
    RanPrecedences {
        answer,
        ranges: kept,
    }
}

// A task's bound.
pub fn precedence_bound(
    record: DisjunctivePropagator,
    ranges: Ranges,
    task: usize,
) -> Result<Option<i32>, Refusal>
    ensures { BoundGiven «record» (earliests (given ranges)) (latests (given ranges)) (all_bars_are_fit (given ranges)) task result }
{
    by_precedence::precedence_bound(&record, ranges.given(), task)
}

// The reason of a task's bound.
pub fn precedence_reason(
    record: DisjunctivePropagator,
    ranges: Ranges,
    task: usize,
    reason: &mut [i32],
) -> Result<usize, Refusal>
    ensures { ReasonGiven «record» (earliests (given ranges)) (latests (given ranges)) (all_bars_are_fit (given ranges)) task reason.old result
        reason.new }
{
    by_precedence::precedence_reason(&record, ranges.given(), task, reason)
}
