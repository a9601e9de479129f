// The page: refused with nothing changed, or written.
ghost use Rattle.fixed_schedules.specs.Neighbours.{Tested};
ghost use Rattle.pages.specs.Pages.{page_number, Paged};

use crate::lines::put_first_lines;
use fixed_schedules::refusals::fixed_order;
use integers::limits::TASKS;
use integers::refused::Refusal;
use records::record::DisjunctivePropagator;

// The bytes of a line, its line feed among them.
const LINE: usize = 31;

// The tasks by start, or why a page is refused: for its schedule, and then for its room.
fn page_order(
    record: &DisjunctivePropagator,
    earliest: &[i32],
    latest: &[i32],
    room: usize,
) -> Result<[usize; TASKS], Refusal>
    ensures { Tested earliest.now (page_number «record».now earliest.now latest.now room) result }
{
    let order = fixed_order(record, earliest, latest)?;
    if room < LINE * (record.count + 1) {
        return Err(Refusal::PageRoom);
    }
    Ok(order)
}

// A page of a fixed schedule, written at the front of the buffer: how many bytes it has, or why it is refused.
pub fn page(
    record: DisjunctivePropagator,
    earliest: &[i32],
    latest: &[i32],
    out: &mut [u8],
) -> Result<usize, Refusal>
    ensures { Paged «record» earliest.now latest.now out.old result out.new }
{
    let order = page_order(&record, earliest, latest, out.len())?;
    Ok(put_first_lines(out, &order, earliest, &record.durations))
}
