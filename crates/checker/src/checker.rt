// The check of a reason: `check` of the source's `DisjunctiveEdgeFindingChecker`, on the state that the premises and the negated consequent leave.
ghost use Rattle.std.specs.Prelude.{◌≡◌, List, ℕ, ℤ};
ghost use Rattle.std.proofs.Math.Option.{Option};
ghost use Rattle.checking.specs.Atoms.{consequent_of};
ghost use Rattle.checker.specs.Checked.{Checked, CheckedMirrored};
ghost use Rattle.checker.specs.Checks.{verdict, judged_by};
ghost use Rattle.checker.specs.MirroredChecks.{check_towards};
ghost use Rattle.checker.specs.CheckArrays.{Judgeable, Consequent};

use crate::formula::{implied, overloaded};
use crate::mirrored_bounds::mirror_bounds;
use checking::prepared_bounds::prepare_bounds;
use checking::start_bounds::Bounds;
use checking::variable_state::Application;
use integers::limits::TASKS;
use integers::numbers::nat_of;
use integers::refused::Refusal;
use records::record::creation_refusal;

// The answer: a contradiction names the variable of the first failing atom.
#[derive(Clone, Copy)]
pub enum Verdict {
    Passed,
    NotPassed,
    Contradiction(usize),
    Refused(Refusal),
}

// Whether the formula is judged in the caller's time or in mirrored time.
#[derive(Clone, Copy)]
pub enum Direction {
    Forward,
    Mirrored,
}

// What the formula says.
impl From<bool> for Verdict {
    ghost from_gives = { λ holds v. v ≡ verdict holds };

    fn from(holds: bool) -> Verdict {
        if holds {
            Verdict::Passed
        } else {
            Verdict::NotPassed
        }
    }
}

// The formula for the consequent, or for none. The bounds are lent, and the propagating task leaves the bounded ones.
fn judge(bounds: &mut Bounds, durations: &[u32; TASKS], n: usize, consequent: &[i32]) -> Verdict
    requires { ((ds : List ℤ) × (lower : ℕ → Option ℤ) × (upper : ℕ → Option ℤ)
        × Judgeable ds lower upper n bounds.old durations.now) × Consequent consequent.now }
    ensures { (ds : List ℤ) (lower upper : ℕ → Option ℤ) → Judgeable ds lower upper n bounds.old durations.now
        → result ≡ judged_by ds lower upper (consequent_of consequent.now) }
{
    let Some(variable) = consequent.first() else {
        return overloaded(bounds, durations, n).into();
    };
    let propagating_task = nat_of(*variable) as usize;
    if propagating_task >= n || !bounds.bounded[propagating_task] {
        return Verdict::Refused(Refusal::Consequent);
    }
    implied(bounds, durations, n, propagating_task).into()
}

// The check, with its formula judged in one direction: the switch is this one call, and the definition of a check in either time has it too.
fn check_as(
    direction: Direction,
    durations: &[i32],
    premises: &[i32],
    consequent: &[i32],
) -> Verdict
    ensures { result ≡ check_towards direction durations.now premises.now consequent.now }
{
    let mut lengths = [0; TASKS];
    if let Err(why) = creation_refusal(&mut lengths, durations) {
        return Verdict::Refused(why);
    }
    let n = durations.len();
    let mut bounds = Bounds::none();
    match prepare_bounds(&mut bounds, premises, consequent, n) {
        Application::Consistent => {
            if let Direction::Mirrored = direction {
                mirror_bounds(&mut bounds, &lengths, n);
            }
            judge(&mut bounds, &lengths, n, consequent)
        }
        Application::Contradiction(x) => Verdict::Contradiction(x),
        Application::Refused(why) => Verdict::Refused(why),
    }
}

// Checks the premises and the consequent against the tasks.
pub fn check(durations: &[i32], premises: &[i32], consequent: &[i32]) -> Verdict
    ensures { Checked durations.now premises.now consequent.now result }
{
    check_as(Direction::Forward, durations, premises, consequent)
}

// The check of a reason for a latest start: its words are in the caller's time, and the formula is judged in mirrored time.
pub fn check_mirrored(durations: &[i32], premises: &[i32], consequent: &[i32]) -> Verdict
    ensures { CheckedMirrored durations.now premises.now consequent.now result }
{
    check_as(Direction::Mirrored, durations, premises, consequent)
}
