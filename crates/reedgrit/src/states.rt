// Queries of the state that premises lead to. The state itself has enums and is not passed to C.
ghost use Rattle.std.specs.Prelude.{◌≡◌, false};
ghost use Rattle.integers.specs.Refused.{number_of};
ghost use Rattle.integers.specs.Tests.{refusal};
ghost use Rattle.checking.specs.States.{side_of};
ghost use Rattle.reedgrit.specs.States.{prepared_answer, state_tests, truth_stepped, bound_stepped};

use answers::source_calls::{
    StateAnswer, bound_numbers, refusal_numbers, state_numbers, truth_numbers,
};
use checking::atomic_constraint::{atom_is_accepted, variable_is_accepted};
use checking::variable_state::{Side, VariableState};
use integers::limits::PREMISES;
use integers::refused::Refusal;

// Whether the premises and the negated consequent, of one atom or none, lead to a state.
pub fn prepared(premises: &[i32], consequent: &[i32]) -> StateAnswer
    ensures { result ≡ prepared_answer premises.now consequent.now }
{
    let applied = VariableState::prepare_for_conflict_check(premises, consequent);
    let answer = applied.answer;
    let consistent = StateAnswer {
        kind: 0,
        number: 0,
        variable: 0,
        infinity: 0,
        value: 0,
    };
    state_numbers(answer, consistent)
}

// Why a query is refused whose own words are not accepted: more premises than there may be come first.
fn unfit_reason(premises: &[i32]) -> Refusal
    ensures { number_of result ≡ refusal (state_tests premises.now false) }
{
    if 3 * PREMISES + 2 < premises.len() {
        return Refusal::Premises;
    }
    Refusal::Atoms
}

// Whether every value that the premises leave to a variable meets the atom (variable, kind, value).
pub fn truth_after(premises: &[i32], variable: i32, kind: i32, value: i32) -> StateAnswer
    ensures { result ≡ truth_stepped premises.now variable kind value }
{
    if !atom_is_accepted(variable, kind, value) {
        return refusal_numbers(unfit_reason(premises).number());
    }
    let applied = VariableState::prepare_for_conflict_check(premises, &premises[..0]);
    let here = truth_numbers(applied.state.is_true(variable, kind, value));
    let answer = applied.answer;
    state_numbers(answer, here)
}

// The bound on one side that the premises leave to a variable.
pub fn bound_after(premises: &[i32], side: Side, variable: i32) -> StateAnswer
    ensures { result ≡ bound_stepped (side_of side) premises.now variable }
{
    if !variable_is_accepted(variable) {
        return refusal_numbers(unfit_reason(premises).number());
    }
    let applied = VariableState::prepare_for_conflict_check(premises, &premises[..0]);
    let here = bound_numbers(applied.state.bound(side, variable));
    let answer = applied.answer;
    state_numbers(answer, here)
}
