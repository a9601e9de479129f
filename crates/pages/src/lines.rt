// The lines of a page. Each function puts its bytes at a place of the caller's buffer and answers the place after them: nothing allocates, so there is no
// String to append to.
ghost use Rattle.std.specs.Prelude.{◌≡◌, ◌+◌, ◌*◌, ◌≤◌, ◌<◌, pos, ◌+ℤ◌, length, take};
ghost use mathlib.Core.List.{◌++◌, flat_map};
ghost use Rattle.integers.specs.Limits.{TASKS, DURATIONS};
ghost use Rattle.records.specs.Refusals.{StartFits};
ghost use Rattle.fixed_schedules.specs.Neighbours.{Traversable};
ghost use Rattle.text.specs.DecimalText.{decimal, Puts};
ghost use Rattle.pages.specs.Lines.{LINE, pad_left, heading, line_of};
ghost use Rattle.pages.specs.Pages.{line_at};

use integers::limits::TASKS;
use integers::numbers::word_of;
use text::writing::{put_bytes, put_number};

// A number, right-aligned: it is written after spaces, and the text ends with it and is as long as the width.
pub fn put_right(out: &mut [u8], at: usize, width: usize, x: i32) -> usize
    requires { (at + width ≤ length out.old) × (length (decimal x) ≤ width) × (width ≤ 12) }
    ensures text { Puts out.old out.new at (pad_left width (decimal x)) result }
    ensures wide { result ≡ at + width }
{
    let mut text = [b' '; 24];
    let end = put_number(&mut text, 12, x);
    put_bytes(out, at, &text[end - width..end])
}

// When a task that starts there ends.
pub fn end_of(start: i32, duration: u32) -> i32
    requires { StartFits start × (duration ≤ DURATIONS) }
    ensures { result ≡ start +ℤ pos duration }
{
    start + duration as i32
}

// A task's line.
fn put_line(out: &mut [u8], at: usize, task: usize, start: i32, duration: u32) -> usize
    requires { (at + LINE ≤ length out.old) × (task < TASKS) × StartFits start × (duration ≤ DURATIONS) }
    ensures { Puts out.old out.new at (line_of task start (start +ℤ pos duration)) result }
{
    let end = end_of(start, duration);
    let a = put_right(out, at, 2, word_of(task));
    let b = put_bytes(out, a, b" ");
    let c = put_right(out, b, 11, start);
    let d = put_bytes(out, c, b" ");
    let e = put_right(out, d, 11, end);
    put_bytes(out, e, b"    \n")
}

// The heading line.
fn put_heading(out: &mut [u8]) -> usize
    requires { LINE ≤ length out.old }
    ensures { Puts out.old out.new 0 heading result }
{
    put_bytes(out, 0, b"NR       START         END    \n")
}

// The heading, and after it the lines of the tasks in an order, one for each place of it.
pub fn put_lines(
    out: &mut [u8],
    order: &[usize],
    earliest: &[i32],
    durations: &[u32; TASKS],
) -> usize
    requires { Traversable order.now earliest.now durations.now × (LINE * (length order.now + 1) ≤ length out.old) }
    ensures { Puts out.old out.new 0
        (heading ++ flat_map (line_at durations.now earliest.now) order.now) result }
{
    let mut at = put_heading(out);
    for &task in order {
        at = put_line(out, at, task, earliest[task], durations[task]);
    }
    at
}

// The same of an order that stands in the first places, one for each task. The places after them do not count, so that a caller may lend the whole array.
pub fn put_first_lines(
    out: &mut [u8],
    order: &[usize],
    earliest: &[i32],
    durations: &[u32; TASKS],
) -> usize
    requires { (length earliest.now ≤ length order.now)
        × Traversable (take (length earliest.now) order.now) earliest.now durations.now
        × (LINE * (length earliest.now + 1) ≤ length out.old) }
    ensures { Puts out.old out.new 0
        (heading ++ flat_map (line_at durations.now earliest.now) (take (length earliest.now) order.now)) result }
{
    let mut at = put_heading(out);
    for &task in &order[..earliest.len()] {
        at = put_line(out, at, task, earliest[task], durations[task]);
    }
    at
}

#[cfg(test)]
mod tests {
    use super::*;

    // The places of an order say which lines are put: one for each place, fewer or more than there are tasks.
    #[test]
    fn a_line_for_each_place(rt: HostRuntime) {
        let mut durations = [0; TASKS];
        durations[0] = 4;
        durations[1] = 15;
        let mut short = [b'.'; 64];
        assert_eq!(rt; put_lines(&mut short, &[1], &[3, -12], &durations), 62);
        let page = b"NR       START         END    \n 1         -12           3    \n..";
        assert_eq!(rt; short.as_slice(), page.as_slice());
        let mut long = [b'.'; 126];
        assert_eq!(rt;
            put_lines(&mut long, &[0, 1, 0], &[3, -12], &durations),
            124
        );
        let page =
            b"NR       START         END    \n 0           3           7    \n 1         -12           3    \n 0           3           7    \n..";
        assert_eq!(rt; long.as_slice(), page.as_slice());
    }
}
