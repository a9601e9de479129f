// The answers of the calls beside the run as structs of numbers, and the functions that make them of the answers. Kind 3 is a refusal with its number;
// what a kind does not have is 0.
ghost use Rattle.std.specs.Prelude.{◌≡◌};
ghost use Rattle.overload_test.specs.Numbers.{numbers_of_overload};
ghost use Rattle.conflict_pages.specs.Numbers.{numbers_of_conflict_page};
ghost use Rattle.task_changes.specs.Numbers.{numbers_of_change};
ghost use Rattle.free_starts.specs.Numbers.{free_start_numbers};
ghost use Rattle.pages.specs.Numbers.{numbers_of_page};
ghost use Rattle.precedences.specs.Numbers.{numbers_of_precedences};
ghost use Rattle.precedences.specs.ReasonNumbers.{numbers_of_reason, numbers_of_bound};
ghost use Rattle.runs.specs.Outcomes.{outcome_numbers};
ghost use Rattle.busiest_stretch.specs.Numbers.{numbers_of_busiest};
ghost use Rattle.answers.specs.SourceAnswers.{WordsCountable};
ghost use Rattle.answers.specs.AddedAnswers.{answer_of_mirrored, answer_of_count, change_answer, answer_of_start, busiest_answer, answer_of_charges, answer_of_conflict};

use busiest_stretch::answer::Stretch;
use charges::answer::{Charges, TaskCharges};
use conflicts::answer::{Conflict, Found, Work};
use integers::limits::TASKS;
use integers::refused::Refusal;
use post_words::words_of;
use precedences::answers::Precedences;
use runs::outcome::Outcome;

// How a mirrored pass ended: kind 0 is Done, 1 Overload with the stretch of atom words that is its reason, 2 Emptied.
#[repr(C)]
#[derive(Clone, Copy)]
pub struct MirroredAnswer {
    pub kind: u32,
    pub number: u32,
    pub posts: usize,
    pub first: usize,
    pub count: usize,
}

// An answer with one count or task. Overload test: kind 0 is yes, with the tasks read, and 1 no. Page: kind 0 has its bytes. A conflict's page: kind 0 has
// its bytes, and 1 is nothing found. Pass by precedences: kind 0 is Done, and 1 Emptied, with its task. Reason: kind 0 has its atoms.
#[repr(C)]
#[derive(Clone, Copy)]
pub struct CountAnswer {
    pub kind: u32,
    pub number: u32,
    pub count: usize,
}

// A change of the record: kind 0 is made.
#[repr(C)]
#[derive(Clone, Copy)]
pub struct ChangeAnswer {
    pub kind: u32,
    pub number: u32,
}

// An answer with one start. Earliest free start: kind 0 has it. Bound by precedences: kind 0 has it, and 1 is none.
#[repr(C)]
#[derive(Clone, Copy)]
pub struct StartAnswer {
    pub kind: u32,
    pub number: u32,
    pub start: i32,
}

// The busiest stretch: kind 0 has the covered time and the stretch's start.
#[repr(C)]
#[derive(Clone, Copy)]
pub struct BusiestAnswer {
    pub kind: u32,
    pub number: u32,
    pub time: u32,
    pub start: i32,
}

// A conflict: kind 0 is nothing found, 1 an overload, and 2 a late task, with its number, its latest start and its bound. The sets and their sums are the
// call's.
#[repr(C)]
#[derive(Clone, Copy)]
pub struct ConflictAnswer {
    pub kind: u32,
    pub number: u32,
    pub task: usize,
    pub latest_start: i32,
    pub bound: i32,
    pub set: Work,
    pub lct: i32,
    pub excess: u32,
    pub before: Work,
}

// The charges: kind 0 has the charges by task number, in cents, and their sum.
#[repr(C)]
#[derive(Clone, Copy)]
pub struct ChargesAnswer {
    pub kind: u32,
    pub number: u32,
    pub total: u32,
    pub charges: [u32; TASKS],
}

fn mirrored_answer(
    kind: u32,
    number: u32,
    posts: usize,
    first: usize,
    count: usize,
) -> MirroredAnswer
    ensures { result ≡ record { kind = kind; number = number; posts = posts; first = first; count = count } }
{
    MirroredAnswer {
        kind,
        number,
        posts,
        first,
        count,
    }
}

fn count_answer(kind: u32, number: u32, count: usize) -> CountAnswer
    ensures { result ≡ record { kind = kind; number = number; count = count } }
{
    CountAnswer {
        kind,
        number,
        count,
    }
}

fn start_answer(kind: u32, number: u32, start: i32) -> StartAnswer
    ensures { result ≡ record { kind = kind; number = number; start = start } }
{
    StartAnswer {
        kind,
        number,
        start,
    }
}

// The numbers of a mirrored pass.
pub fn mirrored_numbers(outcome: Outcome) -> MirroredAnswer
    requires { WordsCountable outcome }
    ensures { result ≡ answer_of_mirrored (outcome_numbers outcome) }
{
    match outcome {
        Outcome::Done(posts) => mirrored_answer(0, 0, posts, 0, 0),
        Outcome::Overload {
            posts,
            first,
            count,
        } => mirrored_answer(1, 0, posts, words_of(first), words_of(count)),
        Outcome::Emptied(posts) => mirrored_answer(2, 0, posts, 0, 0),
        Outcome::Refused(why) => mirrored_answer(3, why.number(), 0, 0, 0),
    }
}

// The numbers of a call that answers a count: a page, or the reason of one task's bound.
pub fn count_numbers(answer: Result<usize, Refusal>) -> CountAnswer
    ensures page { result ≡ answer_of_count (numbers_of_page answer) }
    ensures reason { result ≡ answer_of_count (numbers_of_reason answer) }
{
    match answer {
        Ok(count) => count_answer(0, 0, count),
        Err(why) => count_answer(3, why.number(), 0),
    }
}

// The numbers of a call that may find nothing to count: the overload test, or a conflict's page.
pub fn found_numbers(answer: Result<Option<usize>, Refusal>) -> CountAnswer
    ensures overload { result ≡ answer_of_count (numbers_of_overload answer) }
    ensures page { result ≡ answer_of_count (numbers_of_conflict_page answer) }
{
    match answer {
        Ok(Some(count)) => count_answer(0, 0, count),
        Ok(None) => count_answer(1, 0, 0),
        Err(why) => count_answer(3, why.number(), 0),
    }
}

// The numbers of a change.
pub fn change_numbers(answer: Result<(), Refusal>) -> ChangeAnswer
    ensures { result ≡ change_answer (numbers_of_change answer) }
{
    match answer {
        Ok(()) => ChangeAnswer { kind: 0, number: 0 },
        Err(why) => ChangeAnswer {
            kind: 3,
            number: why.number(),
        },
    }
}

// The numbers of a free start.
pub fn start_numbers(answer: Result<i32, Refusal>) -> StartAnswer
    ensures { result ≡ answer_of_start (free_start_numbers answer) }
{
    match answer {
        Ok(start) => start_answer(0, 0, start),
        Err(why) => start_answer(3, why.number(), 0),
    }
}

// The numbers of the busiest stretch.
pub fn busiest_numbers(answer: Result<Stretch, Refusal>) -> BusiestAnswer
    ensures { result ≡ busiest_answer (numbers_of_busiest answer) }
{
    match answer {
        Ok(stretch) => BusiestAnswer {
            kind: 0,
            number: 0,
            time: stretch.covered,
            start: stretch.start,
        },
        Err(why) => BusiestAnswer {
            kind: 3,
            number: why.number(),
            time: 0,
            start: 0,
        },
    }
}

// The numbers of a pass by precedences.
pub fn precedences_numbers(answer: Precedences) -> CountAnswer
    ensures { result ≡ answer_of_count (numbers_of_precedences answer) }
{
    match answer {
        Precedences::Done => count_answer(0, 0, 0),
        Precedences::Emptied(task) => count_answer(1, 0, task),
        Precedences::Refused(why) => count_answer(3, why.number(), 0),
    }
}

// The numbers of one task's bound.
pub fn bound_above_numbers(answer: Result<Option<i32>, Refusal>) -> StartAnswer
    ensures { result ≡ answer_of_start (numbers_of_bound answer) }
{
    match answer {
        Ok(Some(bound)) => start_answer(0, 0, bound),
        Ok(None) => start_answer(1, 0, 0),
        Err(why) => start_answer(3, why.number(), 0),
    }
}

// The charges with the numbers of their answer.
fn charges_answer(kind: u32, number: u32, charged: TaskCharges) -> ChargesAnswer
    ensures { result ≡ record { kind = kind; number = number; total = charged.total; charges = charged.charges } }
{
    let charges = charged.charges;
    ChargesAnswer {
        kind,
        number,
        total: charged.total,
        charges,
    }
}

// The numbers of the answer, with the charges.
pub fn charges_numbers(made: Charges) -> ChargesAnswer
    ensures { result ≡ answer_of_charges made }
{
    let answer = made.answer;
    match answer {
        Ok(()) => charges_answer(0, 0, made.charged),
        Err(why) => charges_answer(3, why.number(), made.charged),
    }
}

// What was found as numbers, with the sets.
fn conflict_answer(
    kind: u32,
    number: u32,
    task: usize,
    latest_start: i32,
    bound: i32,
    shown: Conflict,
) -> ConflictAnswer
    ensures { result ≡ record {
      kind = kind;
      number = number;
      task = task;
      latest_start = latest_start;
      bound = bound;
      set = shown.set;
      lct = shown.lct;
      excess = shown.excess;
      before = shown.before;
    } }
{
    let set = shown.set;
    let before = shown.before;
    ConflictAnswer {
        kind,
        number,
        task,
        latest_start,
        bound,
        set,
        lct: shown.lct,
        excess: shown.excess,
        before,
    }
}

// The numbers of a conflict, with its sets.
pub fn conflict_numbers(shown: Conflict) -> ConflictAnswer
    ensures { result ≡ answer_of_conflict shown }
{
    let found = shown.found;
    match found {
        Found::NothingFound => conflict_answer(0, 0, 0, 0, 0, shown),
        Found::Overload => conflict_answer(1, 0, 0, 0, 0, shown),
        Found::Late {
            task,
            latest_start,
            bound,
        } => conflict_answer(2, 0, task, latest_start, bound, shown),
        Found::Refused(why) => conflict_answer(3, why.number(), 0, 0, 0, shown),
    }
}
