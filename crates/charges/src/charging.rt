// The charges: refused, or made by the tariff.
ghost use Rattle.std.specs.Prelude.{◌≡◌, ◌≤◌, pos, ◌+ℤ◌};
ghost use Rattle.integers.specs.Limits.{DURATIONS};
ghost use Rattle.records.specs.Refusals.{StartFits};
ghost use Rattle.charges.specs.Tariff.{late_minutes, cost_of_minutes};
ghost use Rattle.charges.specs.Charges.{DueFits, MINUTES, without_charges, Charged};
ghost use Rattle.charges.specs.ChargeLoop.{Chargeable, Summed};

use crate::answer::{Charges, TaskCharges};
use crate::rates::cost_of;
use crate::refusals::charges_refusal;
use integers::limits::TASKS;
use integers::moments::moment_of;
use records::record::DisjunctivePropagator;

// How many minutes after its due moment a task ends.
fn minutes_late(start: i32, duration: u32, due: i32) -> u32
    requires { StartFits start × (duration ≤ DURATIONS) × DueFits due }
    ensures { (result ≡ late_minutes (start +ℤ pos duration) due) × (result ≤ MINUTES) }
{
    let end = moment_of(start) + duration;
    end.saturating_sub(moment_of(due))
}

// What a task costs.
fn charge_of(start: i32, duration: u32, due: i32) -> u32
    requires { StartFits start × (duration ≤ DURATIONS) × DueFits due }
    ensures { result ≡ cost_of_minutes (late_minutes (start +ℤ pos duration) due) }
{
    cost_of(minutes_late(start, duration, due))
}

// The charges of a schedule.
fn charges_of(earliest: &[i32], durations: &[u32; TASKS], due: &[i32]) -> TaskCharges
    requires { Chargeable durations.now earliest.now due.now }
    ensures { Summed durations.now earliest.now due.now result }
{
    let mut out = [0u32; TASKS];
    let mut sum = 0;
    for (i, start) in earliest.iter().enumerate() {
        let cost = charge_of(*start, durations[i], due[i]);
        out[i] = cost;
        sum += cost;
    }
    TaskCharges {
        charges: out,
        total: sum,
    }
}

// Charges of zero.
fn no_charges() -> TaskCharges
    ensures { result ≡ without_charges }
{
    TaskCharges {
        charges: [0u32; TASKS],
        total: 0,
    }
}

// The charges of a fixed schedule; or charges of zero, with the reason why the call is refused.
pub fn charges(
    record: DisjunctivePropagator,
    earliest: &[i32],
    latest: &[i32],
    due: &[i32],
) -> Charges
    ensures { Charged «record» earliest.now latest.now due.now result }
{
    let answer = charges_refusal(&record, earliest, latest, due);
    let charged = match answer {
        Ok(()) => charges_of(earliest, &record.durations, due),
        Err(_) => no_charges(),
    };
    Charges { charged, answer }
}
