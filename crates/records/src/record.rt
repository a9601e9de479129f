// The propagator's record: the task count, the durations and their sum. Creation, and the test whether a record is lawful.
ghost use Rattle.std.specs.Prelude.{◌≡◌, ◌&&◌, ◌≤◌, ◌<◌, length, get_or};
ghost use Rattle.integers.specs.Limits.{TASKS};
ghost use Rattle.integers.specs.FilledLists.{no_tasks};
ghost use Rattle.integers.specs.Refused.{number_in};
ghost use Rattle.integers.specs.Tests.{all_below, refusal};
ghost use Rattle.scheduling.specs.Scheduling.{total};
ghost use Rattle.records.specs.Records.{count_within, sum_within, total_of_true, lasts_at, holds_zero, lawful_record, duration_for};
ghost use Rattle.records.specs.Records.{creation_tests, lengths_of, zero_record, Creates};

use integers::limits::{DURATIONS, TASKS};
use integers::refused::Refusal;

// The propagator that uses disjunctive reasoning to propagate the disjunctive constraint (https://sofdem.github.io/gccat/gccat/Cdisjunctive.html).
//
// It implements edge finding as specified in [1] with explanations based on [2]. The reasoning is based on finding a task i and a subset of tasks: if i were
// scheduled at its earliest start time, it would overflow the resource capacity, and thus i should be scheduled after all activities from this set.
//
// It follows the MiniZinc specification of disjunctive_strict (https://docs.minizinc.dev/en/stable/lib-globals-scheduling.html).
//
// Bibliography
// - [1] P. Vilím, ‘Filtering algorithms for the unary resource constraint’, Archives of Control Sciences, vol. 18, no. 2, pp. 159–202, 2008.
// - [2] R. A. Vasile, ‘Evaluating the Impact of Explanations on the Performance of an Edge-Finding Propagator’.
//
// Places of the durations from the count on are 0.
#[repr(C)]
#[derive(Clone, Copy)]
pub struct DisjunctivePropagator {
    pub count: usize,
    pub durations: [u32; TASKS],
    pub total: u32,
}

// The record, or the record of zeros beside why the durations are refused. `Creates` promises the zeros too, so the answer does not hold the record.
#[derive(Clone, Copy)]
pub struct Created {
    pub record: DisjunctivePropagator,
    pub answer: Result<(), Refusal>,
}

// Whether a number of tasks is from 1 to TASKS.
fn count_fits(n: usize) -> bool
    ensures { result ≡ count_within n }
{
    1 <= n && n <= TASKS
}

// The sum of durations, in 64 bits.
pub fn total_of(durations: &[u32]) -> u64
    requires { length durations.now ≤ TASKS }
    ensures { result ≡ total (λ k. get_or durations.now k 0) (length durations.now) }
{
    durations.iter().map(|x| u64::from(*x)).sum()
}

// Whether the sum of durations is within the limit.
fn sum_fits(durations: &[u32]) -> bool
    requires { length durations.now ≤ TASKS }
    ensures { result ≡ sum_within (λ k. get_or durations.now k 0) (length durations.now) }
{
    total_of(durations) <= u64::from(DURATIONS)
}

// Whether a stored total is the sum of durations.
fn total_true(stored: u32, durations: &[u32]) -> bool
    requires { length durations.now ≤ TASKS }
    ensures { result ≡ total_of_true stored durations.now (length durations.now) }
{
    u64::from(stored) == total_of(durations)
}

// Whether each duration is 1 or more. All are read, with no test at each, which is the faster way.
fn all_last(durations: &[u32]) -> bool
    ensures { result ≡ all_below (lasts_at durations.now) (length durations.now) }
{
    let mut all = true;
    for x in durations {
        all = all & (1 <= *x);
    }
    all
}

// A duration of a caller's as a natural number; 0 where it is negative.
pub fn duration_of(x: i32) -> u32
    ensures { result ≡ duration_for x }
{
    u32::try_from(x).unwrap_or(0)
}

// The durations of a record from a caller's.
fn durations_of(lengths: &mut [u32; TASKS], durations: &[i32])
    requires { (lengths.old ≡ no_tasks) × (length durations.now ≤ TASKS) }
    ensures { lengths.new ≡ lengths_of durations.now }
{
    for (i, x) in durations.iter().enumerate() {
        lengths[i] = duration_of(*x);
    }
}

// Why creation is refused. The durations of the record go into a lent array, so that none is copied.
pub fn creation_refusal(lengths: &mut [u32; TASKS], durations: &[i32]) -> Result<(), Refusal>
    requires { lengths.old ≡ no_tasks }
    ensures { (number_in result ≡ refusal (creation_tests durations.now))
        × (number_in result ≡ 0 → lengths.new ≡ lengths_of durations.now) }
{
    let n = durations.len();
    if !count_fits(n) {
        return Err(Refusal::TaskCount);
    }
    durations_of(lengths, durations);
    let made = &lengths[..n];
    if !all_last(made) {
        return Err(Refusal::Duration);
    }
    if !sum_fits(made) {
        return Err(Refusal::DurationSum);
    }
    Ok(())
}

// The record of zeros.
fn zeros() -> DisjunctivePropagator
    ensures { result ≡ zero_record }
{
    DisjunctivePropagator {
        count: 0,
        durations: [0u32; TASKS],
        total: 0,
    }
}

// A record of the durations with their sum; or the record of zeros, and why they are refused.
pub fn create(durations: &[i32]) -> Created
    ensures { Creates durations.now result }
{
    let mut lengths = [0u32; TASKS];
    let answer = creation_refusal(&mut lengths, durations);
    if answer.is_err() {
        return Created {
            record: zeros(),
            answer,
        };
    }
    let n = durations.len();
    let total = total_of(&lengths[..n]) as u32;
    Created {
        record: DisjunctivePropagator {
            count: n,
            durations: lengths,
            total,
        },
        answer,
    }
}

// Whether unused places hold 0. All are read, with no test at each, which is the faster way.
fn all_zero(places: &[u32]) -> bool
    ensures { result ≡ all_below (holds_zero places.now) (length places.now) }
{
    let mut used: u32 = 0;
    for x in places {
        used |= *x;
    }
    used == 0
}

// Whether a record is one that creation leaves. Any other is refused as `Refusal::Record`.
pub fn lawful(record: &DisjunctivePropagator) -> bool
    ensures { result ≡ lawful_record «record».now }
{
    if !count_fits(record.count) {
        return false;
    }
    let (durations, unused) = record.durations.split_at(record.count);
    all_last(durations)
        && total_true(record.total, durations)
        && record.total <= DURATIONS
        && all_zero(unused)
}
