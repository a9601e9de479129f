// The open calls that say why the tasks cannot fit into lent ranges: the conflict, and its page. Of what is lent, only the page's buffer changes.
ghost use Rattle.conflicts.specs.Conflicts.{ConflictFound};
ghost use Rattle.conflict_pages.specs.Pages.{ConflictPaged};
ghost use Rattle.ranges.specs.Bars.{all_bars_are_fit};
ghost use Rattle.ranges.specs.Ranges.{earliests, latests};

use crate::taken_starts::{earliest_of, latest_of};
use conflicts::answer::Conflict;
use integers::refused::Refusal;
use ranges::range::Range;
use ranges::starts::starts_with_bars;
use records::record::DisjunctivePropagator;

// The sets of tasks that show that the record's tasks cannot fit.
pub fn conflict(propagator: &DisjunctivePropagator, ranges: &[Range]) -> Conflict
    ensures { ConflictFound propagator.now (earliests ranges.now) (latests ranges.now)
        (all_bars_are_fit ranges.now) result }
{
    let taken = starts_with_bars(ranges);
    conflicts::conflict::conflict(
        *propagator,
        earliest_of(&taken.starts),
        latest_of(&taken.starts),
        taken.bars_fit,
    )
}

// The same as text.
pub fn conflict_page(
    propagator: &DisjunctivePropagator,
    ranges: &[Range],
    out: &mut [u8],
) -> Result<Option<usize>, Refusal>
    ensures { ConflictPaged propagator.now (earliests ranges.now) (latests ranges.now)
        (all_bars_are_fit ranges.now) out.old result out.new }
{
    let taken = starts_with_bars(ranges);
    conflict_pages::page::conflict_page(
        *propagator,
        earliest_of(&taken.starts),
        latest_of(&taken.starts),
        taken.bars_fit,
        out,
    )
}
