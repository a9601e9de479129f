// The commands that change the record: `create`, `add` and `remove`.
use disjunctive::{DisjunctivePropagator, create};
use replay_lines::lines::{say_error, say_refused};
use replay_lines::parts::place_of;
use std::io;
use std::io::Write;
use task_changes::changes::{Changed, add, remove};

// `create`: a record of the durations.
pub fn answer_create<W: Write>(
    output: &mut W,
    durations: &[i32],
) -> io::Result<DisjunctivePropagator> {
    let made = create(durations);
    let answer = made.answer;
    match answer {
        Ok(()) => writeln!(output, "created {}", durations.len()),
        Err(why) => say_refused(output, why.number()),
    }?;
    Ok(made.record)
}

// `add`: the record with one more task, of the duration.
pub fn answer_add<W: Write>(
    output: &mut W,
    record: Option<DisjunctivePropagator>,
    words: &[i32],
) -> io::Result<Option<DisjunctivePropagator>> {
    let (Some(before), [duration]) = (record, words) else {
        say_error(output)?;
        return Ok(record);
    };
    say_change(output, add(before, *duration), "added")
}

// `remove`: the record without the task.
pub fn answer_remove<W: Write>(
    output: &mut W,
    record: Option<DisjunctivePropagator>,
    words: &[i32],
) -> io::Result<Option<DisjunctivePropagator>> {
    let (Some(before), [task]) = (record, words) else {
        say_error(output)?;
        return Ok(record);
    };
    say_change(output, remove(before, place_of(*task)), "removed")
}

// The line of a change, and the record after it.
fn say_change<W: Write>(
    output: &mut W,
    changed: Changed,
    word: &str,
) -> io::Result<Option<DisjunctivePropagator>> {
    let answer = changed.answer;
    match answer {
        Ok(()) => writeln!(output, "{word}"),
        Err(why) => say_refused(output, why.number()),
    }?;
    Ok(Some(changed.record))
}
