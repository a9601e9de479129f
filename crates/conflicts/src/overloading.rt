// The set that overloads: of the tasks that the overload test has read, the longest suffix by earliest start that attains their ect.
ghost use Rattle.std.specs.Prelude.{◌≡◌, ◌≤◌};
ghost use Rattle.scheduling.specs.Scheduling.{natural, Tasks};
ghost use Rattle.overload_test.specs.ReadTasks.{read};
ghost use Rattle.overload_test.specs.ReadArrays.{HoldsTasks};
ghost use Rattle.conflicts.specs.Answers.{flags_of};
ghost use Rattle.conflicts.specs.ConflictOf.{overloading_set, overload_by};
ghost use Rattle.conflicts.specs.HeldTasks.{Overloadable};

use crate::answer::{Conflict, Found, no_work};
use crate::spans::{span_of, work_of};
use crate::suffixes::suffix_to;
use chosen_sets::theta_ect;
use integers::limits::TASKS;
use integers::moments::start_of;
use overload_test::task_moments::TaskMoments;
use sorts::sort_numbers;
use trees::ect::raised;

// The first k tasks by latest completion.
fn tasks_read(m: &TaskMoments, k: usize) -> [bool; TASKS]
    requires { (J : Tasks natural) × HoldsTasks J m.now × (k ≤ m.now.count) }
    ensures { (J : Tasks natural) → HoldsTasks J m.now → result ≡ flags_of J.count (read J k) }
{
    let mut tasks: [usize; TASKS] = [0; TASKS];
    sort_numbers(&mut tasks, m.count, &m.lct);
    let mut read = [false; TASKS];
    for &j in &tasks[..k] {
        read[j] = true;
    }
    read
}

// The overload, after the test has read k tasks.
pub fn overloading(m: &TaskMoments, k: usize) -> Conflict
    requires { Overloadable m.now k }
    ensures { (h : Overloadable m.now k) → result ≡ overload_by h.J (overloading_set h.J k) }
{
    let read = tasks_read(m, k);
    let ect = theta_ect(&read, &m.est, &m.durations, m.count);
    let tasks = suffix_to(m, read, raised(ect, 0));
    let span = span_of(m, &tasks);
    Conflict {
        found: Found::Overload,
        set: work_of(tasks, span),
        lct: start_of(span.lct),
        excess: span.past(span.lct),
        before: no_work(),
    }
}
