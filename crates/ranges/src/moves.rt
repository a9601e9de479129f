// Where a start goes that a call has moved: past the bars that it meets, on or back. Each function has its mirror image. The two differ in a field, in a
// comparison and in the direction of the walk, so that one function for both would take all three as arguments, and be longer where it is called.
ghost use Rattle.std.specs.Prelude.{◌≡◌};
ghost use Rattle.ranges.specs.Bars.{bars_of};
ghost use Rattle.ranges.specs.Moves.{past_the_bar, moved_onward, start_stored, before_the_bar, moved_backward, latest_stored};

use crate::range::Range;

// A start at the bar goes on by one, but not past the latest start.
fn past_bar(latest: i32, bar: i32, start: i32) -> i32
    ensures { result ≡ past_the_bar latest bar start }
{
    if bar == start && start < latest {
        start + 1
    } else {
        start
    }
}

// A start, past the bars one after the other, from the first on.
fn moved_on(range: &Range, start: i32) -> i32
    ensures { result ≡ moved_onward range.now.latest start (bars_of range.now) }
{
    range
        .bars()
        .iter()
        .fold(start, |at, bar| past_bar(range.latest, *bar, at))
}

// The earliest start to store where a call leaves `start`: a start that was not raised stays.
#[tactic(auto, unfolding(crate::specs::Moves::start_stored))]
pub fn stored_start(range: &Range, start: i32) -> i32
    ensures { result ≡ start_stored range.now start }
{
    if start <= range.earliest {
        range.earliest
    } else {
        moved_on(range, start)
    }
}

// A start at the bar goes back by one, but not before the earliest start.
fn before_bar(earliest: i32, bar: i32, start: i32) -> i32
    ensures { result ≡ before_the_bar earliest bar start }
{
    if bar == start && earliest < start {
        start - 1
    } else {
        start
    }
}

// A start, before the bars one after the other, from the last back.
fn moved_back(range: &Range, start: i32) -> i32
    ensures { result ≡ moved_backward range.now.earliest start (bars_of range.now) }
{
    range
        .bars()
        .iter()
        .rev()
        .fold(start, |at, bar| before_bar(range.earliest, *bar, at))
}

// The latest start to store where a mirrored pass leaves `start`: a start that was not lowered stays.
#[tactic(auto, unfolding(crate::specs::Moves::latest_stored))]
pub fn stored_latest(range: &Range, start: i32) -> i32
    ensures { result ≡ latest_stored range.now start }
{
    if range.latest <= start {
        range.latest
    } else {
        moved_back(range, start)
    }
}
