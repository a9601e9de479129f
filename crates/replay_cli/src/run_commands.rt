// The calls on ranges that may have barred starts: the run, the mirrored pass, the overload test, those by precedences and those of conflicts.
use crate::conflict_commands::{answer_conflict, answer_conflict_page};
use crate::range_lists::say_starts;
use disjunctive::by_value::Ranges;
use disjunctive::{DisjunctivePropagator, by_value};
use integers::limits::{ATOMWORDS, POSTWORDS, TASKS};
use precedences::answers::Precedences;
use replay_lines::lines::say_refused;
use replay_lines::posts::{say_atoms, say_overload, say_posts};
use replay_lines::words::{Barred, OneBound};
use runs::outcome::Outcome;
use std::io;
use std::io::Write;

// Words of the reason of one bound: two atoms for each task.
const REASON: usize = 6 * TASKS;

// The answer on ranges that may have barred starts.
pub fn answer_barred<W: Write>(
    output: &mut W,
    record: DisjunctivePropagator,
    question: Barred,
    ranges: Ranges,
) -> io::Result<()> {
    match question {
        Barred::Run => answer_run(output, record, ranges),
        Barred::Mirror => answer_mirrored(output, record, ranges),
        Barred::Quick => answer_overload_test(output, record, ranges),
        Barred::Precede => answer_precedences(output, record, ranges),
        Barred::Conflict => answer_conflict(output, record, ranges),
        Barred::ConflictPage => answer_conflict_page(output, record, ranges),
    }
}

// `run`: its posts, its end, the earliest starts that it leaves and its leaf changes; or the number that refused it.
fn answer_run<W: Write>(
    output: &mut W,
    record: DisjunctivePropagator,
    ranges: Ranges,
) -> io::Result<()> {
    let mut posts = [0i32; POSTWORDS];
    let mut atoms = [0i32; ATOMWORDS];
    let now = by_value::run(record, ranges, &mut posts, &mut atoms);
    let finished = now.finished;
    let outcome = finished.outcome;
    say_outcome(output, outcome, &posts, &atoms)?;
    if let Outcome::Refused(_) = outcome {
        return Ok(());
    }
    say_starts(output, &now.ranges, ranges.count, |range| range.earliest)?;
    writeln!(output, "changes {}", finished.changes)
}

// `mirror`: the same of the mirrored pass, with latest starts and no leaf changes.
fn answer_mirrored<W: Write>(
    output: &mut W,
    record: DisjunctivePropagator,
    ranges: Ranges,
) -> io::Result<()> {
    let mut posts = [0i32; POSTWORDS];
    let mut atoms = [0i32; ATOMWORDS];
    let now = by_value::run_mirrored(record, ranges, &mut posts, &mut atoms);
    let outcome = now.outcome;
    say_outcome(output, outcome, &posts, &atoms)?;
    if let Outcome::Refused(_) = outcome {
        return Ok(());
    }
    say_starts(output, &now.ranges, ranges.count, |range| range.latest)
}

// The posts, and the line of the end; after that of an overload its reason.
fn say_outcome<W: Write>(
    output: &mut W,
    outcome: Outcome,
    posts: &[i32],
    atoms: &[i32],
) -> io::Result<()> {
    match outcome {
        Outcome::Done(count) => {
            say_posts(output, posts, atoms, count)?;
            writeln!(output, "done")
        }
        Outcome::Overload {
            posts: made,
            first,
            count,
        } => {
            say_posts(output, posts, atoms, made)?;
            say_overload(output, atoms, first, count)
        }
        Outcome::Emptied(count) => {
            say_posts(output, posts, atoms, count)?;
            writeln!(output, "emptied")
        }
        Outcome::Refused(why) => say_refused(output, why.number()),
    }
}

// `quick`: whether some set overloads.
fn answer_overload_test<W: Write>(
    output: &mut W,
    record: DisjunctivePropagator,
    ranges: Ranges,
) -> io::Result<()> {
    match by_value::overload_test(record, ranges) {
        Ok(Some(read)) => writeln!(output, "yes {read}"),
        Ok(None) => writeln!(output, "no"),
        Err(why) => say_refused(output, why.number()),
    }
}

// `precede`: the pass by the precedences that can be read off leaves earliest starts, or names the task whose bound passes its latest start.
fn answer_precedences<W: Write>(
    output: &mut W,
    record: DisjunctivePropagator,
    ranges: Ranges,
) -> io::Result<()> {
    let now = by_value::precedences(record, ranges);
    let answer = now.answer;
    match answer {
        Precedences::Done => say_starts(output, &now.ranges, ranges.count, |range| range.earliest),
        Precedences::Emptied(task) => writeln!(output, "passes {task}"),
        Precedences::Refused(why) => say_refused(output, why.number()),
    }
}

// The answer about the bound of a task, on ranges that may have barred starts.
pub fn answer_bound<W: Write>(
    output: &mut W,
    record: DisjunctivePropagator,
    question: OneBound,
    ranges: Ranges,
    task: usize,
) -> io::Result<()> {
    match question {
        OneBound::Value => answer_value(output, record, ranges, task),
        OneBound::Reason => answer_reason(output, record, ranges, task),
    }
}

// `precede-bound`: a task's bound, where it is above the earliest start.
fn answer_value<W: Write>(
    output: &mut W,
    record: DisjunctivePropagator,
    ranges: Ranges,
    task: usize,
) -> io::Result<()> {
    match by_value::precedence_bound(record, ranges, task) {
        Ok(Some(bound)) => writeln!(output, "bound {bound}"),
        Ok(None) => writeln!(output, "none"),
        Err(why) => say_refused(output, why.number()),
    }
}

// `precede-why`: the reason of it.
fn answer_reason<W: Write>(
    output: &mut W,
    record: DisjunctivePropagator,
    ranges: Ranges,
    task: usize,
) -> io::Result<()> {
    let mut atoms = [0i32; REASON];
    let answer = by_value::precedence_reason(record, ranges, task, &mut atoms);
    match answer {
        Ok(count) => {
            writeln!(output, "count {count}")?;
            say_atoms(output, &atoms, 0, count)
        }
        Err(why) => say_refused(output, why.number()),
    }
}
