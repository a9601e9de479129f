// The open calls on a fixed schedule in lent ranges: its page, its charges, the earliest free start beside it, and its busiest stretch. Of what is
// lent, only the page's buffer changes.
ghost use Rattle.charges.specs.Charges.{Charged};
ghost use Rattle.free_starts.specs.FreeStarts.{FreeStartAnswered};
ghost use Rattle.pages.specs.Pages.{Paged};
ghost use Rattle.busiest_stretch.specs.Stretches.{BusiestAnswered};
ghost use Rattle.ranges.specs.Ranges.{earliests, latests};

use crate::taken_starts::{earliest_of, latest_of};
use busiest_stretch::answer::Stretch;
use charges::answer::Charges;
use integers::refused::Refusal;
use ranges::range::Range;
use ranges::starts::starts_of;
use records::record::DisjunctivePropagator;

// The schedule's page.
pub fn page(
    propagator: &DisjunctivePropagator,
    ranges: &[Range],
    out: &mut [u8],
) -> Result<usize, Refusal>
    ensures { Paged propagator.now (earliests ranges.now) (latests ranges.now) out.old result
        out.new }
{
    let starts = starts_of(ranges);
    pages::page::page(*propagator, earliest_of(&starts), latest_of(&starts), out)
}

// What its tasks cost that end after their due moments.
pub fn charges(propagator: &DisjunctivePropagator, ranges: &[Range], due: &[i32]) -> Charges
    ensures { Charged propagator.now (earliests ranges.now) (latests ranges.now) due.now result }
{
    let starts = starts_of(ranges);
    charges::charging::charges(*propagator, earliest_of(&starts), latest_of(&starts), due)
}

// The least start at or after t at which a further task of duration d overlaps no task of the schedule.
pub fn free_start(
    propagator: &DisjunctivePropagator,
    ranges: &[Range],
    t: i32,
    d: i32,
) -> Result<i32, Refusal>
    ensures { FreeStartAnswered propagator.now (earliests ranges.now) (latests ranges.now) t d result }
{
    let starts = starts_of(ranges);
    free_starts::free_start(*propagator, earliest_of(&starts), latest_of(&starts), t, d)
}

// The greatest time that tasks of the schedule cover of a stretch of length w, and the least start that reaches it.
pub fn busiest_stretch(
    propagator: &DisjunctivePropagator,
    ranges: &[Range],
    w: i32,
) -> Result<Stretch, Refusal>
    ensures { BusiestAnswered propagator.now (earliests ranges.now) (latests ranges.now) w result }
{
    let starts = starts_of(ranges);
    busiest_stretch::stretch::busiest_stretch(
        *propagator,
        earliest_of(&starts),
        latest_of(&starts),
        w,
    )
}
