// The answers of the open calls as structs of numbers, and the functions that make them of the answers.
ghost use Rattle.std.specs.Prelude.{◌≡◌, [], ◌∷◌, pos};
ghost use Rattle.integers.specs.Answers.{answered, refused_by};
ghost use Rattle.records.specs.Records.{number_of_creation};
ghost use Rattle.checking.specs.Answers.{numbers_of_truth, numbers_of_ext, numbers_of_bound};
ghost use Rattle.checker.specs.Verdicts.{numbers_of_verdict};
ghost use Rattle.runs.specs.Outcomes.{outcome_numbers};
ghost use Rattle.answers.specs.SourceAnswers.{WordsCountable, answer_of_run, answer_of_check, state_answer, queried_at};

use checker::checker::Verdict;
use checking::int_ext::IntExt;
use checking::variable_state::Application;
use integers::refused::Refusal;
use post_words::words_of;
use records::record::DisjunctivePropagator;
use runs::outcome::{Finished, Outcome};

// A new record, and the number that refused its durations, or 0.
#[repr(C)]
#[derive(Clone, Copy)]
pub struct NewPropagator {
    pub propagator: DisjunctivePropagator,
    pub number: u32,
}

// How a run ended, and its leaf changes. Kind 0 is Done, 1 Overload, 2 Emptied, 3 Refused with its number. An overload has the stretch of atom words that is
// its reason, as a post has. What a kind lacks is 0.
#[repr(C)]
#[derive(Clone, Copy)]
pub struct RunAnswer {
    pub kind: u32,
    pub number: u32,
    pub posts: usize,
    pub first: usize,
    pub count: usize,
    pub changes: usize,
}

// A post and the stretch of atom words that belongs to it: its first word and how many there are. All but the number is 0 where that is 11.
#[repr(C)]
#[derive(Clone, Copy)]
pub struct PostAnswer {
    pub number: u32,
    pub task: i32,
    pub bound: i32,
    pub first: usize,
    pub count: usize,
}

// Kind 0 is Passed, 1 Not passed, 2 a contradiction with its variable, 3 Refused with its number.
#[repr(C)]
#[derive(Clone, Copy)]
pub struct CheckAnswer {
    pub kind: u32,
    pub number: u32,
    pub variable: usize,
}

// What a state says. Kind 0 is yes or a bound, 1 no, 2 a contradiction among the atoms, with its variable, 3 Refused with its number. A bound has a sign: -1
// and 1 for the infinities, 0 for a value.
#[repr(C)]
#[derive(Clone, Copy)]
pub struct StateAnswer {
    pub kind: u32,
    pub number: u32,
    pub variable: usize,
    pub infinity: i32,
    pub value: i32,
}

// The number of an answer of creation.
pub fn creation_number(answer: Result<(), Refusal>) -> u32
    ensures { result ≡ number_of_creation answer }
{
    match answer {
        Ok(()) => 0,
        Err(why) => why.number(),
    }
}

// The numbers of a run's outcome, and its leaf changes. An outcome alone does not say that its words can be counted; the run's promise does.
pub fn finished_numbers(finished: Finished) -> RunAnswer
    requires { WordsCountable finished.outcome }
    ensures { result ≡ answer_of_run (outcome_numbers finished.outcome) finished.changes }
{
    let outcome = finished.outcome;
    let changes = finished.changes;
    match outcome {
        Outcome::Done(posts) => run_answer(0, 0, posts, 0, 0, changes),
        Outcome::Overload {
            posts,
            first,
            count,
        } => run_answer(1, 0, posts, words_of(first), words_of(count), changes),
        Outcome::Emptied(posts) => run_answer(2, 0, posts, 0, 0, changes),
        Outcome::Refused(why) => run_answer(3, why.number(), 0, 0, 0, changes),
    }
}

fn run_answer(
    kind: u32,
    number: u32,
    posts: usize,
    first: usize,
    count: usize,
    changes: usize,
) -> RunAnswer
    ensures { result ≡ record { kind = kind; number = number; posts = posts; first = first; count = count; changes = changes } }
{
    RunAnswer {
        kind,
        number,
        posts,
        first,
        count,
        changes,
    }
}

// The numbers of a check's verdict.
pub fn verdict_numbers(verdict: Verdict) -> CheckAnswer
    ensures { result ≡ answer_of_check (numbers_of_verdict verdict) }
{
    match verdict {
        Verdict::Passed => check_answer(0, 0, 0),
        Verdict::NotPassed => check_answer(1, 0, 0),
        Verdict::Contradiction(variable) => check_answer(2, 0, variable),
        Verdict::Refused(why) => check_answer(3, why.number(), 0),
    }
}

fn check_answer(kind: u32, number: u32, variable: usize) -> CheckAnswer
    ensures { result ≡ record { kind = kind; number = number; variable = variable } }
{
    CheckAnswer {
        kind,
        number,
        variable,
    }
}

// The atoms that were to lead to a state contradict each other.
fn contradiction_numbers(variable: usize) -> StateAnswer
    ensures { result ≡ state_answer (answered 2 (pos variable ∷ [])) }
{
    StateAnswer {
        kind: 2,
        number: 0,
        variable,
        infinity: 0,
        value: 0,
    }
}

// They, or the query, are refused.
pub fn refusal_numbers(number: u32) -> StateAnswer
    ensures { result ≡ state_answer (refused_by number) }
{
    StateAnswer {
        kind: 3,
        number,
        variable: 0,
        infinity: 0,
        value: 0,
    }
}

// Whether the atom is true.
pub fn truth_numbers(truth: Result<bool, Refusal>) -> StateAnswer
    ensures { result ≡ state_answer (numbers_of_truth truth) }
{
    match truth {
        Ok(true) => StateAnswer {
            kind: 0,
            number: 0,
            variable: 0,
            infinity: 0,
            value: 0,
        },
        Ok(false) => StateAnswer {
            kind: 1,
            number: 0,
            variable: 0,
            infinity: 0,
            value: 0,
        },
        Err(why) => refusal_numbers(why.number()),
    }
}

// A bound that is there.
fn ext_numbers(bound: IntExt) -> StateAnswer
    ensures { result ≡ state_answer (numbers_of_ext bound) }
{
    match bound {
        IntExt::Int(value) => StateAnswer {
            kind: 0,
            number: 0,
            variable: 0,
            infinity: 0,
            value,
        },
        IntExt::NegativeInf => StateAnswer {
            kind: 0,
            number: 0,
            variable: 0,
            infinity: -1,
            value: 0,
        },
        IntExt::PositiveInf => StateAnswer {
            kind: 0,
            number: 0,
            variable: 0,
            infinity: 1,
            value: 0,
        },
    }
}

// The numbers of a bound.
pub fn bound_numbers(bound: Result<IntExt, Refusal>) -> StateAnswer
    ensures { result ≡ state_answer (numbers_of_bound bound) }
{
    match bound {
        Ok(x) => ext_numbers(x),
        Err(why) => refusal_numbers(why.number()),
    }
}

// What a query of the state that atoms lead to answers: `here`, unless they lead to none.
pub fn state_numbers(answer: Application, here: StateAnswer) -> StateAnswer
    ensures { result ≡ queried_at answer here }
{
    match answer {
        Application::Consistent => here,
        Application::Contradiction(x) => contradiction_numbers(x),
        Application::Refused(why) => refusal_numbers(why.number()),
    }
}
