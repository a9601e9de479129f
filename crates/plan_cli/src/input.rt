// The input's numbers as tasks: one count, and three numbers for each task.
ghost use Rattle.std.specs.Prelude.{List, ◌≡◌, ◌≤◌, ◌<◌, ℤ, IfSome};
ghost use Rattle.std.proofs.Math.Option.{Option};
ghost use Rattle.integers.specs.Limits.{TASKS};
ghost use Rattle.integers.specs.Moments.{zero_at};
ghost use Rattle.text.specs.Scanner.{gathered};
ghost use Rattle.plan_cli.specs.InputCount.{first_natural, count_in, column};
ghost use Rattle.plan_cli.specs.Unread.{number_of_unread};

use integers::limits::TASKS;
use integers::refused::Refusal;
use text::reading::{KEPT, Numbers};

// Why an input has no tasks to plan: it is no list of tasks, or it has more than a record has.
#[derive(Clone, Copy)]
pub enum Unread {
    NoTasks,
    TooMany,
}

impl Unread {
    // The number that refuses the input: 0, or that of creation.
    pub fn number(self) -> u32
        ensures { result ≡ number_of_unread self }
    {
        match self {
            Unread::NoTasks => 0,
            Unread::TooMany => Refusal::TaskCount.number(),
        }
    }
}

// The first number, where all words are numbers and it is 0 or more.
pub fn first_natural(numbers: Numbers) -> Option<usize>
    ensures value { (xs : Option (List ℤ)) → numbers ≡ gathered xs → result ≡ first_natural xs }
    ensures within { IfSome result (λ n. n < zero_at) }
{
    if !numbers.valid || numbers.count == 0 {
        return None;
    }
    usize::try_from(numbers.kept[0]).ok()
}

// How many tasks the input has. The first number counts the triples after it.
pub fn task_count(numbers: Numbers) -> Option<usize>
    ensures { (xs : Option (List ℤ)) → numbers ≡ gathered xs → result ≡ count_in xs }
{
    let n = first_natural(numbers)?;
    if numbers.count != 1 + 3 * n {
        return None;
    }
    Some(n)
}

// Every third number from place `from` on: the earliest starts from 1, the latest from 2, the durations from 3.
pub fn column_of(kept: &[i32; KEPT], n: usize, from: usize) -> [i32; TASKS]
    requires { (n ≤ TASKS) × (from ≤ 3) }
    ensures { result ≡ column kept.now n from }
{
    let mut out = [0i32; TASKS];
    for i in 0..n {
        out[i] = kept[3 * i + from];
    }
    out
}
