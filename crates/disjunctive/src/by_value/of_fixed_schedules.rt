// The calls on a fixed schedule, with plain parameters.
ghost use Rattle.charges.specs.Charges.{Charged};
ghost use Rattle.free_starts.specs.FreeStarts.{FreeStartAnswered};
ghost use Rattle.pages.specs.Pages.{Paged};
ghost use Rattle.busiest_stretch.specs.Stretches.{BusiestAnswered};
ghost use Rattle.ranges.specs.Ranges.{earliests, latests};
ghost use Rattle.disjunctive.specs.GivenRanges.{given};

use crate::by_value::Ranges;
use crate::open_calls::of_fixed_schedules;
use busiest_stretch::answer::Stretch;
use charges::answer::Charges;
use integers::refused::Refusal;
use records::record::DisjunctivePropagator;

// The page.
pub fn page(record: DisjunctivePropagator, ranges: Ranges, out: &mut [u8]) -> Result<usize, Refusal>
    ensures { Paged «record» (earliests (given ranges)) (latests (given ranges)) out.old result out.new }
{
    of_fixed_schedules::page(&record, ranges.given(), out)
}

// The charges.
pub fn charges(record: DisjunctivePropagator, ranges: Ranges, due: &[i32]) -> Charges
    ensures { Charged «record» (earliests (given ranges)) (latests (given ranges)) due.now result }
{
    of_fixed_schedules::charges(&record, ranges.given(), due)
}

// The earliest free start.
pub fn free_start(
    record: DisjunctivePropagator,
    ranges: Ranges,
    t: i32,
    d: i32,
) -> Result<i32, Refusal>
    ensures { FreeStartAnswered «record» (earliests (given ranges)) (latests (given ranges)) t d result }
{
    of_fixed_schedules::free_start(&record, ranges.given(), t, d)
}

// The busiest stretch.
pub fn busiest_stretch(
    record: DisjunctivePropagator,
    ranges: Ranges,
    w: i32,
) -> Result<Stretch, Refusal>
    ensures { BusiestAnswered «record» (earliests (given ranges)) (latests (given ranges)) w result }
{
    of_fixed_schedules::busiest_stretch(&record, ranges.given(), w)
}
