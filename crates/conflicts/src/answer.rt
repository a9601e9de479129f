// What the call answers.
ghost use Rattle.std.specs.Prelude.{◌≡◌};
ghost use Rattle.conflicts.specs.Answers.{without_work, without_conflict};

use integers::limits::TASKS;
use integers::refused::Refusal;

// No conflict; some set overloads its span; none does, and a task's bound passes its latest start; or why the input is refused.
#[derive(Clone, Copy)]
pub enum Found {
    NothingFound,
    Overload,
    Late {
        task: usize,
        latest_start: i32,
        bound: i32,
    },
    Refused(Refusal),
}

// A set of tasks, its earliest start and its processing time. The set is a flag for each of TASKS places, as C's struct has it.
#[repr(C)]
#[derive(Clone, Copy)]
pub struct Work {
    pub tasks: [bool; TASKS],
    pub est: i32,
    pub p: u32,
}

// In both conflicts est + p of the set is `excess` past `lct`. An overload's set is Ω, and lct is its own. A late task is in the set, lct is that of the
// others in it, so that it comes after them; `before` are those of the others whose est + p is its bound. What a conflict does not have is empty and 0: one
// struct serves all cases, as `ConflictFound` and C's struct have it.
#[derive(Clone, Copy)]
pub struct Conflict {
    pub found: Found,
    pub set: Work,
    pub lct: i32,
    pub excess: u32,
    pub before: Work,
}

// No task.
pub(crate) fn no_work() -> Work
    ensures { result ≡ without_work }
{
    Work {
        tasks: [false; TASKS],
        est: 0,
        p: 0,
    }
}

// An answer that shows no set.
pub(crate) fn no_conflict(found: Found) -> Conflict
    ensures { result ≡ without_conflict found }
{
    Conflict {
        found,
        set: no_work(),
        lct: 0,
        excess: 0,
        before: no_work(),
    }
}
