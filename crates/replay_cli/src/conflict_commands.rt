// The conflict of ranges that may have barred starts, and its page.
use conflicts::answer::{Conflict, Found, Work};
use disjunctive::DisjunctivePropagator;
use disjunctive::by_value::{Ranges, conflict, conflict_page};
use integers::limits::TASKS;
use replay_lines::lines::{say_part, say_refused};
use std::io;
use std::io::Write;

// Bytes of a page of 48 tasks.
const PAGE: usize = 43 * (TASKS + 5);

// `conflict`: what is found, with the sets that show it.
pub fn answer_conflict<W: Write>(
    output: &mut W,
    record: DisjunctivePropagator,
    ranges: Ranges,
) -> io::Result<()> {
    let shown = conflict(record, ranges);
    let found = shown.found;
    match found {
        Found::NothingFound => writeln!(output, "nothing"),
        Found::Overload => say_set(output, "overload", &shown),
        Found::Late {
            task,
            latest_start,
            bound,
        } => {
            writeln!(output, "late {task} {latest_start} {bound}")?;
            say_set(output, "after", &shown)?;
            say_before(output, &shown.before)
        }
        Found::Refused(why) => say_refused(output, why.number()),
    }
}

// The line of the set that ends before it, with its earliest start and processing time, and its tasks.
fn say_before<W: Write>(output: &mut W, before: &Work) -> io::Result<()> {
    writeln!(output, "ends {} {}", before.est, before.p)?;
    say_tasks(output, before)
}

// The line of the set: a word, its earliest start and processing time, the moment that it passes, and by how much; and its tasks.
fn say_set<W: Write>(output: &mut W, word: &str, shown: &Conflict) -> io::Result<()> {
    let set = &shown.set;
    writeln!(
        output,
        "{word} {} {} {} {}",
        set.est, set.p, shown.lct, shown.excess
    )?;
    say_tasks(output, set)
}

// The line of a set's tasks.
fn say_tasks<W: Write>(output: &mut W, work: &Work) -> io::Result<()> {
    write!(output, "tasks")?;
    for (task, is_in) in work.tasks.iter().enumerate() {
        if *is_in {
            write!(output, " {task}")?;
        }
    }
    writeln!(output)
}

// `conflict-page`: the page.
pub fn answer_conflict_page<W: Write>(
    output: &mut W,
    record: DisjunctivePropagator,
    ranges: Ranges,
) -> io::Result<()> {
    let mut sheet = [0u8; PAGE];
    let answer = conflict_page(record, ranges, &mut sheet);
    match answer {
        Ok(Some(bytes)) => say_part(output, &sheet, bytes),
        Ok(None) => writeln!(output, "nothing"),
        Err(why) => say_refused(output, why.number()),
    }
}
