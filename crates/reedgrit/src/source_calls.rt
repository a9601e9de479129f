// The exported functions. Each is the open call of its name, with the answer's numbers for the answer; none has a `requires`.
ghost use Rattle.std.specs.Prelude.{◌≡◌};
ghost use Rattle.reedgrit.specs.Posts.{post_numbers};
ghost use Rattle.reedgrit.specs.Checks.{CheckedNumbers};
ghost use Rattle.reedgrit.specs.States.{prepared_answer, truth_stepped, lower_after, upper_after};
ghost use Rattle.reedgrit.specs.SourceCalls.{new_numbers, RanNumbers};

use crate::checks::checked;
use crate::posts::post;
use crate::states::{bound_after, prepared, truth_after};
use answers::source_calls::{
    CheckAnswer, NewPropagator, PostAnswer, RunAnswer, StateAnswer, creation_number,
    finished_numbers,
};
use checking::variable_state::Side;
use disjunctive::open_calls::run;
use ranges::range::Range;
use records::record::{DisjunctivePropagator, create};

// A record of the durations, or the record of zeros with the number that refused them.
#[unsafe(no_mangle)]
pub extern "C" fn reedgrit_create(durations: &[i32]) -> NewPropagator
    ensures { result ≡ new_numbers durations.now }
{
    let made = create(durations);
    let answer = made.answer;
    let number = creation_number(answer);
    let propagator = made.record;
    NewPropagator { propagator, number }
}

// A run on the lent record and ranges.
#[unsafe(no_mangle)]
pub extern "C" fn reedgrit_run(
    propagator: &mut DisjunctivePropagator,
    ranges: &mut [Range],
    posts: &mut [i32],
    atoms: &mut [i32],
) -> RunAnswer
    ensures { RanNumbers propagator.old ranges.old posts.old atoms.old result propagator.new
        ranges.new posts.new atoms.new }
{
    finished_numbers(run(propagator, ranges, posts, atoms))
}

// Post `index` of a run that made `post_count`, and the stretch of its atoms.
#[unsafe(no_mangle)]
pub extern "C" fn reedgrit_post(
    posts: &[i32],
    atoms: &[i32],
    post_count: usize,
    index: usize,
) -> PostAnswer
    ensures { result ≡ post_numbers posts.now atoms.now post_count index }
{
    post(posts, atoms, post_count, index)
}

// The check of premises and a consequent, of one atom or none, against the tasks.
#[unsafe(no_mangle)]
pub extern "C" fn reedgrit_check(
    durations: &[i32],
    premises: &[i32],
    consequent: &[i32],
) -> CheckAnswer
    ensures { CheckedNumbers durations.now premises.now consequent.now result }
{
    checked(durations, premises, consequent)
}

// Whether the premises and the negated consequent, of one atom or none, lead to a state. The state itself is not passed to C.
#[unsafe(no_mangle)]
pub extern "C" fn reedgrit_prepare(premises: &[i32], consequent: &[i32]) -> StateAnswer
    ensures { result ≡ prepared_answer premises.now consequent.now }
{
    prepared(premises, consequent)
}

// Whether every value that the premises leave to a variable meets the atom (variable, kind, value).
#[unsafe(no_mangle)]
pub extern "C" fn reedgrit_is_true(
    premises: &[i32],
    variable: i32,
    kind: i32,
    value: i32,
) -> StateAnswer
    ensures { result ≡ truth_stepped premises.now variable kind value }
{
    truth_after(premises, variable, kind, value)
}

// The least value that the premises leave to a variable.
#[unsafe(no_mangle)]
pub extern "C" fn reedgrit_lower_bound(premises: &[i32], variable: i32) -> StateAnswer
    ensures { result ≡ lower_after premises.now variable }
{
    bound_after(premises, Side::Lower, variable)
}

// The greatest value that they leave to it.
#[unsafe(no_mangle)]
pub extern "C" fn reedgrit_upper_bound(premises: &[i32], variable: i32) -> StateAnswer
    ensures { result ≡ upper_after premises.now variable }
{
    bound_after(premises, Side::Upper, variable)
}
