// The page of an instance's conflict, or what is written in its place.
ghost use Rattle.std.specs.Prelude.{◌≤◌, length};
ghost use Rattle.text.specs.DecimalText.{Puts};
ghost use Rattle.why_cli.specs.Written.{ROOM, why_on, why_of};

use conflict_pages::page::conflict_page;
use plan_cli::lines::put_refused;
use plan_cli::tasks::Tasks;
use records::record::{DisjunctivePropagator, create};
use text::writing::put_bytes;

// The page on the ranges. They have no bars, so none is unfit.
fn put_found(
    out: &mut [u8],
    record: DisjunctivePropagator,
    earliest: &[i32],
    latest: &[i32],
) -> usize
    requires { ROOM ≤ length out.old }
    ensures text { Puts out.old out.new 0 (why_on «record» earliest.now latest.now) result }
    ensures within { result ≤ length out.old }
{
    match conflict_page(record, earliest, latest, true, out) {
        Ok(Some(end)) => end,
        Ok(None) => put_bytes(out, 0, b"nothing found\n"),
        Err(why) => put_refused(out, 0, why.number()),
    }
}

// A record of the tasks' durations, and the page on it.
pub fn put_why(out: &mut [u8], tasks: &Tasks) -> usize
    requires { ROOM ≤ length out.old }
    ensures text { Puts out.old out.new 0 (why_of tasks.now.earliest tasks.now.latest tasks.now.durations) result }
    ensures within { result ≤ length out.old }
{
    let created = create(tasks.durations());
    match created.answer {
        Ok(()) => put_found(out, created.record, tasks.earliest(), tasks.latest()),
        Err(why) => put_refused(out, 0, why.number()),
    }
}
