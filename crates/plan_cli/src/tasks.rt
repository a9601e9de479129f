// The tasks of an input.
ghost use Rattle.std.specs.Prelude.{List, ◌≡◌, ◌≤◌, ℤ, length};
ghost use Rattle.std.proofs.Math.Option.{Option};
ghost use Rattle.integers.specs.Limits.{TASKS};
ghost use Rattle.text.specs.Scanner.{gathered};
ghost use Rattle.plan_cli.specs.Printed.{listed_tasks};
ghost use Rattle.plan_cli.specs.InputTasks.{read_of};

use crate::input::{Unread, column_of, task_count};
use integers::limits::TASKS;
use std::marker::Model;
use text::reading::Numbers;

// Tasks by columns: a contract sees the lists of their earliest starts, latest starts and durations. Nothing allocates, so each column is an array, and
// the tasks stand in front.
#[derive(Drop)]
pub struct Tasks {
    count: usize,
    earliest: [i32; TASKS],
    latest: [i32; TASKS],
    durations: [i32; TASKS],
}

impl Model for Tasks {
    ghost use Rattle.std.specs.Prelude.{◌≤◌, take};
    ghost use Rattle.integers.specs.Limits.{TASKS};
    ghost use Rattle.plan_cli.specs.Columns.{Columns};

    ghost Value = { Columns };

    ghost view = { λ t. record { earliest = take t.count t.earliest; latest = take t.count t.latest; durations = take t.count t.durations } };

    ghost invariant = { λ t. t.count ≤ TASKS };
}

impl Tasks {
    // The tasks of an input's numbers, or why there are none to plan. More tasks than a record has are refused here, as creation would.
    pub fn read(numbers: Numbers) -> Result<Tasks, Unread>
        ensures { (xs : Option (List ℤ)) → numbers ≡ gathered xs → result ≡ read_of (listed_tasks xs) }
    {
        let Some(n) = task_count(numbers) else {
            return Err(Unread::NoTasks);
        };
        if n > TASKS {
            return Err(Unread::TooMany);
        }
        let kept = numbers.kept;
        Ok(Tasks {
            count: n,
            earliest: column_of(&kept, n, 1),
            latest: column_of(&kept, n, 2),
            durations: column_of(&kept, n, 3),
        })
    }

    // How many there are.
    pub fn count(&self) -> usize
        ensures count { result ≡ length self.now.earliest }
        ensures few { result ≤ TASKS }
    {
        self.count
    }

    // Their earliest starts.
    pub fn earliest(&self) -> &[i32]
        ensures { result.now ≡ self.now.earliest }
    {
        &self.earliest[..self.count]
    }

    // Their latest starts.
    pub fn latest(&self) -> &[i32]
        ensures { result.now ≡ self.now.latest }
    {
        &self.latest[..self.count]
    }

    // Their durations.
    pub fn durations(&self) -> &[i32]
        ensures { result.now ≡ self.now.durations }
    {
        &self.durations[..self.count]
    }
}
