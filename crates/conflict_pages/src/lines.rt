// The heading of a conflict's page, and the lines of its tasks. As in `text`, each function puts its bytes at a place of the caller's buffer and answers the place
// after them: nothing allocates, and with the room that is required no write can fail.
ghost use Rattle.std.specs.Prelude.{◌≡◌, ◌++◌, ◌+◌, ◌*◌, ◌≤◌, ◌<◌, pos, ◌+ℤ◌, length};
ghost use Rattle.integers.specs.Limits.{TASKS, DURATIONS};
ghost use Rattle.records.specs.Refusals.{StartFits};
ghost use Rattle.text.specs.DecimalText.{Puts};
ghost use Rattle.conflict_pages.specs.Lines.{LINE, line_of, heading};
ghost use Rattle.conflict_pages.specs.TaskLines.{task_lines};
ghost use Rattle.conflict_pages.specs.Sayable.{Linable};

use integers::limits::TASKS;
use integers::numbers::word_of;
use pages::lines::{end_of, put_right};
use text::writing::put_bytes;

// A task's line, with a mark or without.
fn put_line(
    out: &mut [u8],
    at: usize,
    task: usize,
    earliest: i32,
    latest: i32,
    duration: u32,
    marked: bool,
) -> usize
    requires { (at + LINE ≤ length out.old) × (task < TASKS) × StartFits earliest × StartFits latest × (duration ≤ DURATIONS) }
    ensures text { Puts out.old out.new at (line_of task earliest (latest +ℤ pos duration) duration marked) result }
    ensures wide { result ≡ at + LINE }
{
    let until = end_of(latest, duration);
    let a = put_right(out, at, 4, word_of(task));
    let b = put_right(out, a, 12, earliest);
    let c = put_right(out, b, 12, until);
    let d = put_right(out, c, 12, word_of(duration as usize));
    if marked {
        return put_bytes(out, d, b" *\n");
    }
    put_bytes(out, d, b"  \n")
}

// The heading, and after it the lines of the tasks that are chosen, by number; those that are marked have a mark.
pub(crate) fn put_lines(
    out: &mut [u8],
    chosen: &[bool; TASKS],
    marked: &[bool; TASKS],
    earliest: &[i32],
    latest: &[i32],
    durations: &[u32; TASKS],
) -> usize
    requires { Linable earliest.now latest.now durations.now (length out.old) }
    ensures text { Puts out.old out.new 0
        (heading ++ task_lines chosen.now marked.now earliest.now latest.now durations.now) result }
    ensures within { result ≤ LINE * (length earliest.now + 1) }
{
    let mut at = put_bytes(out, 0, b"  NR        FROM       UNTIL       TAKES  \n");
    for k in 0..earliest.len() {
        let shown = chosen[k];
        if shown {
            at = put_line(out, at, k, earliest[k], latest[k], durations[k], marked[k]);
        }
    }
    at
}
