// Why a call is refused for its record and its ranges: the first test that is broken, each tried over the whole input.
ghost use Rattle.std.specs.Prelude.{◌≡◌, ◌&&◌, length};
ghost use Rattle.std.specs.Int.Signed.{le_z};
ghost use Rattle.integers.specs.Refused.{number_in};
ghost use Rattle.integers.specs.Tests.{all_below};
ghost use Rattle.records.specs.Refusals.{within_at, start_fits_at, range_fits_at, range_number, input_number, run_number};

use crate::record::{DisjunctivePropagator, lawful};
use integers::limits::START;
use integers::refused::Refusal;

// Whether x is from low to high, with no branch.
pub fn within(x: i32, low: i32, high: i32) -> bool
    ensures { result ≡ le_z low x && le_z x high }
{
    (low <= x) & (x <= high)
}

// Whether every number is from low to high. All are read, with no branch at any, so that several are compared at once.
pub fn all_within(xs: &[i32], low: i32, high: i32) -> bool
    ensures { result ≡ all_below (within_at low high xs.now) (length xs.now) }
{
    let mut all = true;
    for x in xs {
        all = all & within(*x, low, high);
    }
    all
}

// Whether every start is within the limits.
fn starts_fit(xs: &[i32]) -> bool
    ensures { result ≡ all_below (start_fits_at xs.now) (length xs.now) }
{
    all_within(xs, -START, START)
}

// Whether no earliest start is above its latest.
pub fn ranges_fit(earliest: &[i32], latest: &[i32]) -> bool
    requires { length earliest.now ≡ length latest.now }
    ensures { result ≡ all_below (range_fits_at earliest.now latest.now) (length earliest.now) }
{
    let mut all = true;
    for (i, e) in earliest.iter().enumerate() {
        all = all & (*e <= latest[i]);
    }
    all
}

// Why any call is refused for its record and its ranges, tried in this order: the record, the count of ranges, their starts, their order.
pub fn range_refusal(
    record: &DisjunctivePropagator,
    earliest: &[i32],
    latest: &[i32],
) -> Result<(), Refusal>
    ensures { number_in result ≡ range_number «record».now earliest.now latest.now }
{
    if !lawful(record) {
        return Err(Refusal::Record);
    }
    if earliest.len() != record.count || latest.len() != record.count {
        return Err(Refusal::RangeCount);
    }
    if !starts_fit(earliest) || !starts_fit(latest) {
        return Err(Refusal::Start);
    }
    if !ranges_fit(earliest, latest) {
        return Err(Refusal::Crossed);
    }
    Ok(())
}

// Why a call on ranges is refused for its record, its ranges and then their bars.
pub fn input_refusal(
    record: &DisjunctivePropagator,
    earliest: &[i32],
    latest: &[i32],
    bars_fit: bool,
) -> Result<(), Refusal>
    ensures { number_in result ≡ input_number «record».now earliest.now latest.now bars_fit }
{
    range_refusal(record, earliest, latest)?;
    if !bars_fit {
        return Err(Refusal::Bars);
    }
    Ok(())
}

// Why a run is refused: for its record, its ranges and their bars, and then for the room of its posts and reasons.
pub fn run_refusal(
    record: &DisjunctivePropagator,
    earliest: &[i32],
    latest: &[i32],
    bars_fit: bool,
    post_words: usize,
    atom_words: usize,
) -> Result<(), Refusal>
    ensures { number_in result ≡ run_number «record».now earliest.now latest.now bars_fit post_words atom_words }
{
    input_refusal(record, earliest, latest, bars_fit)?;
    let n = record.count;
    if post_words < 4 * n || atom_words < 6 * (n * n) {
        return Err(Refusal::Room);
    }
    Ok(())
}
