// The calls on a fixed schedule: the page, the charges, the earliest free start and the busiest stretch.
use disjunctive::by_value::Ranges;
use disjunctive::{DisjunctivePropagator, by_value};
use replay_lines::lines::{say_error, say_part, say_refused};
use replay_lines::words::Fixed;
use std::io;
use std::io::Write;

// Bytes of a page of 48 tasks.
const PAGE: usize = 1519;

// The answer on a fixed schedule, and what more is asked.
pub fn answer_fixed<W: Write>(
    output: &mut W,
    record: DisjunctivePropagator,
    question: Fixed,
    ranges: Ranges,
    asked: &[i32],
) -> io::Result<()> {
    match (question, asked) {
        (Fixed::Page, []) => answer_page(output, record, ranges),
        (Fixed::Charges, due) => answer_charges(output, record, ranges, due),
        (Fixed::Free, [from, duration]) => {
            answer_free_start(output, record, ranges, *from, *duration)
        }
        (Fixed::Busiest, [length]) => answer_stretch(output, record, ranges, *length),
        _ => say_error(output),
    }
}

// `page`: the page of a fixed schedule.
fn answer_page<W: Write>(
    output: &mut W,
    record: DisjunctivePropagator,
    ranges: Ranges,
) -> io::Result<()> {
    let mut sheet = [0u8; PAGE];
    let answer = by_value::page(record, ranges, &mut sheet);
    match answer {
        Ok(bytes) => say_part(output, &sheet, bytes),
        Err(why) => say_refused(output, why.number()),
    }
}

// `charges`: the charges of a fixed schedule by the due moments, and their total.
fn answer_charges<W: Write>(
    output: &mut W,
    record: DisjunctivePropagator,
    ranges: Ranges,
    due: &[i32],
) -> io::Result<()> {
    let made = by_value::charges(record, ranges, due);
    let answer = made.answer;
    if let Err(why) = answer {
        return say_refused(output, why.number());
    }
    let charged = made.charged;
    write!(output, "charges")?;
    for charge in charged.charges.iter().take(ranges.count) {
        write!(output, " {charge}")?;
    }
    writeln!(output)?;
    writeln!(output, "total {}", charged.total)
}

// `free`: the earliest free start beside a fixed schedule.
fn answer_free_start<W: Write>(
    output: &mut W,
    record: DisjunctivePropagator,
    ranges: Ranges,
    from: i32,
    duration: i32,
) -> io::Result<()> {
    match by_value::free_start(record, ranges, from, duration) {
        Ok(start) => writeln!(output, "start {start}"),
        Err(why) => say_refused(output, why.number()),
    }
}

// `busiest`: the busiest stretch of a fixed schedule.
fn answer_stretch<W: Write>(
    output: &mut W,
    record: DisjunctivePropagator,
    ranges: Ranges,
    length: i32,
) -> io::Result<()> {
    match by_value::busiest_stretch(record, ranges, length) {
        Ok(stretch) => writeln!(output, "covered {} from {}", stretch.covered, stretch.start),
        Err(why) => say_refused(output, why.number()),
    }
}
