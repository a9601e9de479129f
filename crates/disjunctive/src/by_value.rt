// The open calls with plain parameters: the record and the ranges come by value, and are lent to the open call from here. What changes is returned.
// A caller that holds nothing by reference has the walk of its own code written by the borrow checker.
ghost use Rattle.std.specs.Prelude.{◌≡◌};
ghost use Rattle.overload_test.specs.Tested.{OverloadTested};
ghost use Rattle.ranges.specs.Bars.{all_bars_are_fit};
ghost use Rattle.ranges.specs.Ranges.{earliests, latests};
ghost use Rattle.promises.specs.RanLent.{RanLent};
ghost use Rattle.promises.specs.RanMirroredLent.{RanMirroredLent};
ghost use Rattle.disjunctive.specs.GivenRanges.{lent_of, given, StoredIn};

use crate::open_calls;
use integers::refused::Refusal;
use ranges::range::Range;
use records::record::DisjunctivePropagator;
use runs::outcome::{Finished, Outcome};

pub mod by_precedence;
pub mod of_conflicts;
pub mod of_fixed_schedules;

pub use crate::by_value::by_precedence::{
    RanPrecedences, precedence_bound, precedence_reason, precedences,
};
pub use crate::by_value::of_conflicts::{conflict, conflict_page};
pub use crate::by_value::of_fixed_schedules::{busiest_stretch, charges, free_start, page};

// More than any record has tasks, so that a call refuses as many for their count.
pub const RANGES: usize = 64;

// The first `count` ranges are given to a call. A count above their number gives all of them, and so is refused for the count.
#[derive(Clone, Copy)]
pub struct Ranges {
    pub count: usize,
    pub ranges: [Range; RANGES],
}

// What a run answers, and the ranges that it leaves.
#[derive(Clone, Copy)]
pub struct Ran {
    pub finished: Finished,
    pub ranges: [Range; RANGES],
}

// What a mirrored pass answers, and the ranges that it leaves.
#[derive(Clone, Copy)]
pub struct RanMirrored {
    pub outcome: Outcome,
    pub ranges: [Range; RANGES],
}

impl Ranges {
    // The ranges that a call is given.
    pub(crate) fn given(&self) -> &[Range]
        ensures { result.now ≡ given self.now }
    {
        &self.ranges[..self.count.min(RANGES)]
    }

    // How many they are.
    #[tactic(auto, unfolding(crate::specs::GivenRanges::lent_of))]
    pub(crate) fn lent(&self) -> usize
        ensures { result ≡ lent_of self.now.count }
    {
        self.given().len()
    }
}

// The run. The record is unchanged by contract, and is not returned.
#[tactic(auto, unfolding(crate::specs::GivenRanges::lent_of))]
pub fn run(
    mut record: DisjunctivePropagator,
    ranges: Ranges,
    posts: &mut [i32],
    atoms: &mut [i32],
) -> Ran
    ensures { StoredIn ranges result.ranges (λ ys ys'. RanLent «record» ys posts.old atoms.old result.finished.outcome
        result.finished.changes «record» ys' posts.new atoms.new) }
{
    let n = ranges.lent();
    let mut kept = ranges.ranges;
    let finished = open_calls::run(&mut record, &mut kept[..n], posts, atoms);
    Ran {
        finished,
        ranges: kept,
    }
}

// The mirrored pass.
#[tactic(auto, unfolding(crate::specs::GivenRanges::lent_of))]
pub fn run_mirrored(
    record: DisjunctivePropagator,
    ranges: Ranges,
    posts: &mut [i32],
    atoms: &mut [i32],
) -> RanMirrored
    ensures { StoredIn ranges result.ranges (λ ys ys'. RanMirroredLent «record» ys posts.old atoms.old result.outcome ys'
        posts.new atoms.new) }
{
    let n = ranges.lent();
    let mut kept = ranges.ranges;
    let outcome = open_calls::run_mirrored(&record, &mut kept[..n], posts, atoms);
    RanMirrored {
        outcome,
        ranges: kept,
    }
}

// The overload test.
pub fn overload_test(
    record: DisjunctivePropagator,
    ranges: Ranges,
) -> Result<Option<usize>, Refusal>
    ensures { OverloadTested «record» (earliests (given ranges)) (latests (given ranges)) (all_bars_are_fit (given ranges)) result }
{
    open_calls::overload_test(&record, ranges.given())
}
