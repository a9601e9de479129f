// Lent ranges are taken apart into arrays of numbers, and starts are stored back into them.
ghost use Rattle.std.specs.Prelude.{◌≡◌, ◌≤◌, length};
ghost use Rattle.ranges.specs.Ranges.{with_starts, with_latests};
ghost use Rattle.ranges.specs.TakenApart.{taken, TakenInto, starts_taken, starts_and_bars};

use crate::bars::all_bars_fit;
use crate::moves::{stored_latest, stored_start};
use crate::range::Range;
use integers::limits::TASKS;

// Ranges, taken apart: their numbers stand in the first `count` places, zeros after them. Nothing allocates, so the memory is fixed, and a call lends the two
// arrays in their first places as slices.
#[derive(Clone, Copy)]
pub struct Starts {
    pub count: usize,
    pub earliest: [i32; TASKS],
    pub latest: [i32; TASKS],
}

// Ranges, taken apart, and whether their bars fit.
#[derive(Clone, Copy)]
pub struct StartsWithBars {
    pub starts: Starts,
    pub bars_fit: bool,
}

// How many of `n` ranges are taken apart. More ranges than any record has tasks are refused for their count, and so are none: then none is taken.
#[tactic(auto, unfolding(crate::specs::TakenApart::taken))]
fn fitting(n: usize) -> usize
    ensures { result ≡ taken n }
{
    if n <= TASKS { n } else { 0 }
}

// The two numbers of each range go into the first places of the arrays, whose other places are unchanged. How many ranges were taken apart is answered.
pub fn take_apart(ranges: &[Range], earliest: &mut [i32; TASKS], latest: &mut [i32; TASKS]) -> usize
    ensures { TakenInto ranges.now earliest.old latest.old result earliest.new latest.new }
{
    let count = fitting(ranges.len());
    for (i, range) in ranges[..count].iter().enumerate() {
        earliest[i] = range.earliest;
        latest[i] = range.latest;
    }
    count
}

// Two numbers are copied for each range. No bar is read.
pub fn starts_of(ranges: &[Range]) -> Starts
    ensures { result ≡ starts_taken ranges.now }
{
    let mut earliest = [0; TASKS];
    let mut latest = [0; TASKS];
    let count = take_apart(ranges, &mut earliest, &mut latest);
    Starts {
        count,
        earliest,
        latest,
    }
}

// The starts, and the answer about the bars: for the calls that ask for it.
#[tactic(auto, unfolding(crate::specs::TakenApart::starts_and_bars))]
pub fn starts_with_bars(ranges: &[Range]) -> StartsWithBars
    ensures { result ≡ starts_and_bars ranges.now }
{
    let bars_fit = all_bars_fit(ranges);
    let starts = starts_of(ranges);
    StartsWithBars { starts, bars_fit }
}

// The earliest starts, put back into the ranges that they were taken from: one that was raised moves on to a permitted value. The index stands because after
// a `zip` with `iter_mut` nothing is known of the values that were written. One function for this and the next would take a closure that writes the field, and
// each call would be as long as its loop.
#[tactic(auto, using(crate::proofs::StoredStarts::with_none, crate::proofs::StoredStarts::start_more))]
pub fn store_starts(ranges: &mut [Range], starts: &[i32])
    requires { length starts.now ≤ length ranges.old }
    ensures { ranges.new ≡ with_starts ranges.old starts.now }
{
    for (i, start) in starts.iter().enumerate() {
        ranges[i].earliest = stored_start(&ranges[i], *start);
    }
}

// The latest starts, put back into the ranges that they were taken from: one that was lowered moves back to a permitted value.
#[tactic(auto, using(crate::proofs::StoredStarts::latest_none, crate::proofs::StoredStarts::latest_more))]
pub fn store_latest(ranges: &mut [Range], starts: &[i32])
    requires { length starts.now ≤ length ranges.old }
    ensures { ranges.new ≡ with_latests ranges.old starts.now }
{
    for (i, start) in starts.iter().enumerate() {
        ranges[i].latest = stored_latest(&ranges[i], *start);
    }
}
