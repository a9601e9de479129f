// The starts that were taken apart of ranges, as the slices that the call on numbers takes: the first `count` places of the two arrays.
ghost use Rattle.std.specs.Prelude.{◌≡◌};
ghost use Rattle.ranges.specs.TakenApart.{first_earliest, first_latest};

use integers::limits::TASKS;
use ranges::starts::Starts;

pub(crate) fn earliest_of(starts: &Starts) -> &[i32]
    ensures { result.now ≡ first_earliest starts.now }
{
    &starts.earliest[..starts.count.min(TASKS)]
}

pub(crate) fn latest_of(starts: &Starts) -> &[i32]
    ensures { result.now ≡ first_latest starts.now }
{
    &starts.latest[..starts.count.min(TASKS)]
}
