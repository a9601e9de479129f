// The bounds that lists of atoms leave to the tasks' starts. Lists that make no hole are their bounds, held as words; others are applied to domains.
ghost use Rattle.std.specs.Prelude.{◌≡◌, ◌≤◌, replicate};
ghost use Rattle.integers.specs.Limits.{TASKS, VARIABLES};
ghost use Rattle.checking.specs.BoundWords.{AppliedToWords, no_words};
ghost use Rattle.checking.specs.PreparedBounds.{BoundsPrepared};
ghost use Rattle.checking.specs.States.{Applicable, prepared};
ghost use Rattle.checking.specs.TaskBounds.{unbounded};

use crate::atomic_constraint::{Comparison, given_at, lists_are_accepted};
use crate::bound_words::BoundWords;
use crate::start_bounds::{Bounds, task_bounds};
use crate::variable_state::{Application, VariableState};
use integers::limits::{PREMISES, TASKS, VARIABLES};
use integers::refused::Refusal;

// What atoms applied to words answer. Words hold no hole, so that they end before an atom that can make one.
#[derive(Clone, Copy)]
pub enum OnWords {
    Consistent,
    Contradiction(usize),
    MakesHole,
}

// Apply the premises and, if present, the negated consequent, one after the other, to words without bounds.
fn apply_all(words: &mut [BoundWords; VARIABLES], premises: &[i32], consequent: &[i32]) -> OnWords
    requires { Applicable premises.now consequent.now × (words.old ≡ replicate VARIABLES no_words) }
    ensures { AppliedToWords (prepared premises.now consequent.now) words.new result }
{
    let length = premises.len() + consequent.len();
    for k in 0..length / 3 {
        let atom = given_at(premises, consequent, 3 * k);
        let x = atom.identifier;
        if atom.comparison == Comparison::NotEqual {
            return OnWords::MakesHole;
        }
        let narrowed = words[x].apply(atom.comparison, atom.value);
        if !narrowed.is_consistent() {
            return OnWords::Contradiction(x);
        }
        words[x] = narrowed;
    }
    OnWords::Consistent
}

// The answer of the lists applied to domains, and the bounds that these leave.
fn prepare_domains(
    bounds: &mut Bounds,
    premises: &[i32],
    consequent: &[i32],
    n: usize,
) -> Application
    requires { (n ≤ TASKS) × (bounds.old ≡ unbounded) × Applicable premises.now consequent.now }
    ensures { BoundsPrepared premises.now consequent.now n bounds.new result }
{
    let applied = VariableState::apply_all(premises, consequent);
    bounds.fill(n, |i| task_bounds(applied.state.domains[i]));
    applied.answer
}

// The answer of the premises and the negated consequent. Where they are consistent, the bounds become those that their state leaves to the first n variables,
// which are the tasks' starts.
pub fn prepare_bounds(
    bounds: &mut Bounds,
    premises: &[i32],
    consequent: &[i32],
    n: usize,
) -> Application
    requires { (n ≤ TASKS) × (bounds.old ≡ unbounded) }
    ensures { BoundsPrepared premises.now consequent.now n bounds.new result }
{
    if 3 * PREMISES + 2 < premises.len() {
        return Application::Refused(Refusal::Premises);
    }
    if !lists_are_accepted(premises, consequent) {
        return Application::Refused(Refusal::Atoms);
    }
    let mut words = [BoundWords { lower: 0, upper: 0 }; VARIABLES];
    match apply_all(&mut words, premises, consequent) {
        OnWords::Consistent => {
            bounds.fill(n, |i| words[i].bounds());
            Application::Consistent
        }
        OnWords::Contradiction(x) => Application::Contradiction(x),
        OnWords::MakesHole => prepare_domains(bounds, premises, consequent, n),
    }
}
