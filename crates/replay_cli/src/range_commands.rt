// A command on the record and on ranges: those of a fixed schedule, or such as may have barred starts.
use crate::range_lists::{barred_ranges, ranges_of};
use crate::run_commands::{answer_barred, answer_bound};
use crate::schedule_commands::answer_fixed;
use disjunctive::DisjunctivePropagator;
use disjunctive::by_value::Ranges;
use replay_lines::lines::say_error;
use replay_lines::parts::{Lists, place_of};
use replay_lines::words::{Barred, Fixed, OnRanges, OneBound};
use std::io;
use std::io::Write;

// The answer to a command on ranges.
pub fn answer_on_ranges<W: Write>(
    output: &mut W,
    record: Option<DisjunctivePropagator>,
    question: OnRanges,
    lists: &Lists,
) -> io::Result<()> {
    let Some(record) = record else {
        return say_error(output);
    };
    match question {
        OnRanges::Fixed(question) => on_fixed(output, record, question, lists),
        OnRanges::Barred(question) => on_barred(output, record, question, lists),
        OnRanges::OneBound(question) => on_bound(output, record, question, lists),
    }
}

// A fixed schedule, and at most one list after it: what more is asked.
fn on_fixed<W: Write>(
    output: &mut W,
    record: DisjunctivePropagator,
    question: Fixed,
    lists: &Lists,
) -> io::Result<()> {
    match ranges_of(lists.list(0)) {
        Some(ranges) if lists.count() <= 2 => {
            answer_fixed(output, record, question, ranges, lists.list(1))
        }
        _ => say_error(output),
    }
}

// Ranges, and lists of barred starts after them.
fn on_barred<W: Write>(
    output: &mut W,
    record: DisjunctivePropagator,
    question: Barred,
    lists: &Lists,
) -> io::Result<()> {
    match barred_ranges(lists.list(0), lists) {
        Some(ranges) => answer_barred(output, record, question, ranges),
        None => say_error(output),
    }
}

// The same with the task that is asked about before the ranges.
fn on_bound<W: Write>(
    output: &mut W,
    record: DisjunctivePropagator,
    question: OneBound,
    lists: &Lists,
) -> io::Result<()> {
    let [task, pairs @ ..] = lists.list(0) else {
        return say_error(output);
    };
    match barred_ranges(pairs, lists) {
        Some(ranges) => answer_bound(output, record, question, ranges, place_of(*task)),
        None => say_error(output),
    }
}
