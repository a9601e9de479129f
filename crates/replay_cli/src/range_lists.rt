// The ranges of a command: pairs of starts, and after them lists of barred starts, each for one task.
use disjunctive::by_value::{RANGES, Ranges};
use integers::limits::BARS;
use ranges::range::Range;
use replay_lines::parts::{Lists, place_of};
use std::io;
use std::io::Write;

// A range of two starts that bars none.
fn range_of(earliest: i32, latest: i32) -> Range {
    Range {
        earliest,
        latest,
        count: 0,
        barred: [0; BARS],
    }
}

// The ranges of a list of pairs, or none where a start has no partner. As many are kept as a call takes, more than any record has tasks.
pub fn ranges_of(pairs: &[i32]) -> Option<Ranges> {
    if pairs.len() % 2 != 0 {
        return None;
    }
    let mut ranges = [range_of(0, 0); RANGES];
    for (range, pair) in ranges.iter_mut().zip(pairs.chunks_exact(2)) {
        *range = range_of(pair[0], pair[1]);
    }
    Some(Ranges {
        count: RANGES.min(pairs.len() / 2),
        ranges,
    })
}

// The ranges of a list of pairs with the barred starts of the lists from the second on, or none where one of these is of no task.
pub fn barred_ranges(pairs: &[i32], lists: &Lists) -> Option<Ranges> {
    let mut ranges = ranges_of(pairs)?;
    for k in 1..lists.count() {
        let [task, bars @ ..] = lists.list(k) else {
            return None;
        };
        let count = ranges.count;
        bar(
            ranges.ranges.get_mut(..count)?.get_mut(place_of(*task))?,
            bars,
        );
    }
    Some(ranges)
}

// A range with barred starts. All of them count, also those that find no place.
fn bar(range: &mut Range, bars: &[i32]) {
    range.count = bars.len();
    range.barred = [0; BARS];
    for (barred, start) in range.barred.iter_mut().zip(bars) {
        *barred = *start;
    }
}

// The line of a start of each range: the earliest, or the latest.
pub fn say_starts<W: Write, F: Fn(&Range) -> i32>(
    output: &mut W,
    ranges: &[Range; RANGES],
    n: usize,
    start: F,
) -> io::Result<()>
    requires { F.IsAlwaysCallable start }
{
    write!(output, "starts")?;
    for range in ranges.iter().take(n) {
        write!(output, " {}", start(range))?;
    }
    writeln!(output)
}
