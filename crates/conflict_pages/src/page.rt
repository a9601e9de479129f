// The page: refused with nothing changed, nothing to write of, or written.
ghost use Rattle.std.specs.Prelude.{◌≤◌, length};
ghost use Rattle.text.specs.DecimalText.{Puts};
ghost use Rattle.conflict_pages.specs.Sayable.{Pageable};
ghost use Rattle.conflict_pages.specs.Pages.{page_of, ConflictPaged};

use crate::lines::put_lines;
use crate::sentences::{put_overload, put_sum};
use conflicts::answer::{Conflict, Found};
use conflicts::conflict::conflict;
use integers::refused::Refusal;
use records::record::DisjunctivePropagator;

// The bytes of a line, its line feed among them.
const LINE: usize = 43;

// The lines of a page beside those of its tasks: the heading, and room for two sentences.
const BESIDE: usize = 5;

// The heading, the lines and the sentences of a conflict.
fn put_page(
    record: &DisjunctivePropagator,
    earliest: &[i32],
    latest: &[i32],
    conflict: &Conflict,
    out: &mut [u8],
) -> usize
    requires { Pageable «record».now earliest.now latest.now conflict.now (length out.old) }
    ensures text { Puts out.old out.new 0 (page_of «record».now earliest.now latest.now conflict.now) result }
    ensures within { result ≤ length out.old }
{
    let set = conflict.set;
    let before = conflict.before;
    let at = put_lines(
        out,
        &set.tasks,
        &before.tasks,
        earliest,
        latest,
        &record.durations,
    );
    match conflict.found {
        Found::NothingFound => at,
        Found::Overload => put_overload(out, at, set.est, set.p, conflict.lct, conflict.excess),
        Found::Late {
            task,
            latest_start,
            bound: _,
        } => {
            let next = put_sum(
                out,
                at,
                task,
                b" comes after the others: ",
                set.est,
                set.p,
                conflict.lct,
            );
            put_sum(
                out,
                next,
                task,
                b" starts after those marked *: ",
                before.est,
                before.p,
                latest_start,
            )
        }
        Found::Refused(_) => at,
    }
}

// The page of the conflict of these tasks in these ranges, whose bars fit if `bars_fit`, written at the front of the buffer: how many bytes it has, none where
// no conflict is found, or why the page is refused.
pub fn conflict_page(
    record: DisjunctivePropagator,
    earliest: &[i32],
    latest: &[i32],
    bars_fit: bool,
    out: &mut [u8],
) -> Result<Option<usize>, Refusal>
    ensures { ConflictPaged «record» earliest.now latest.now bars_fit out.old result out.new }
{
    let conflict = conflict(record, earliest, latest, bars_fit);
    if let Found::Refused(why) = conflict.found {
        return Err(why);
    }
    if out.len() < LINE * (record.count + BESIDE) {
        return Err(Refusal::PageRoom);
    }
    if let Found::NothingFound = conflict.found {
        return Ok(None);
    }
    Ok(Some(put_page(&record, earliest, latest, &conflict, out)))
}
