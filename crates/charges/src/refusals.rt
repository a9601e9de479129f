// Why a call for charges is refused.
ghost use Rattle.std.specs.Prelude.{◌≡◌, length};
ghost use Rattle.integers.specs.Refused.{number_in};
ghost use Rattle.integers.specs.Tests.{all_below};
ghost use Rattle.charges.specs.Charges.{due_fits_at, charges_number};

use fixed_schedules::refusals::fixed_order;
use integers::limits::DUE;
use integers::refused::Refusal;
use records::record::DisjunctivePropagator;
use records::refusals::all_within;

// Whether every due moment is within the limits.
fn dues_fit(due: &[i32]) -> bool
    ensures { result ≡ all_below (due_fits_at due.now) (length due.now) }
{
    all_within(due, -DUE, DUE)
}

// Why a call is refused: for its schedule, and then for its due moments.
pub fn charges_refusal(
    record: &DisjunctivePropagator,
    earliest: &[i32],
    latest: &[i32],
    due: &[i32],
) -> Result<(), Refusal>
    ensures { number_in result ≡ charges_number «record».now earliest.now latest.now due.now }
{
    fixed_order(record, earliest, latest)?;
    if due.len() != record.count || !dues_fit(due) {
        return Err(Refusal::Due);
    }
    Ok(())
}
