// The conflict and its page, with plain parameters.
ghost use Rattle.conflicts.specs.Conflicts.{ConflictFound};
ghost use Rattle.conflict_pages.specs.Pages.{ConflictPaged};
ghost use Rattle.ranges.specs.Bars.{all_bars_are_fit};
ghost use Rattle.ranges.specs.Ranges.{earliests, latests};
ghost use Rattle.disjunctive.specs.GivenRanges.{given};

use crate::by_value::Ranges;
use crate::open_calls::of_conflicts;
use conflicts::answer::Conflict;
use integers::refused::Refusal;
use records::record::DisjunctivePropagator;

// The conflict.
pub fn conflict(record: DisjunctivePropagator, ranges: Ranges) -> Conflict
    ensures { ConflictFound «record» (earliests (given ranges)) (latests (given ranges)) (all_bars_are_fit (given ranges)) result }
{
    of_conflicts::conflict(&record, ranges.given())
}

// Its page.
pub fn conflict_page(
    record: DisjunctivePropagator,
    ranges: Ranges,
    out: &mut [u8],
) -> Result<Option<usize>, Refusal>
    ensures { ConflictPaged «record» (earliests (given ranges)) (latests (given ranges)) (all_bars_are_fit (given ranges)) out.old result
        out.new }
{
    of_conflicts::conflict_page(&record, ranges.given(), out)
}
