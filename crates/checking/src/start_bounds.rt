// The bounds that a state leaves to the tasks' starts, as moments.
ghost use Rattle.std.specs.Prelude.{◌≡◌, ℕ, ◌≤◌, ◌<◌, Option};
ghost use Rattle.integers.specs.Limits.{TASKS};
ghost use Rattle.checking.specs.declared.start_bounds.TaskBounds.{TaskBounds};
ghost use Rattle.checking.specs.TaskBounds.{bounds_of_task, with_bounds, unbounded, bounds_by};

use crate::domain::Domain;
use crate::int_ext::IntExt;
use integers::limits::TASKS;
use integers::moments::moment_of;

// Both bounds of one start, where they are finite.
#[derive(Clone, Copy)]
pub struct TaskBounds {
    pub est: u32,
    pub lst: u32,
}

// The bounds of a domain, where both are finite.
pub(crate) fn task_bounds(domain: Domain) -> Option<TaskBounds>
    ensures { result ≡ bounds_of_task domain }
{
    match (domain.lower_bound, domain.upper_bound) {
        (IntExt::Int(lower), IntExt::Int(upper)) => Some(TaskBounds {
            est: moment_of(lower),
            lst: moment_of(upper),
        }),
        _ => None,
    }
}

// The bounds of the tasks: whether a task has both, and each; 0 where it has not. They stand in arrays of their own, since the checker sorts the tasks by the
// words of `est`.
#[derive(Clone, Copy)]
pub struct Bounds {
    pub bounded: [bool; TASKS],
    pub est: [u32; TASKS],
    pub lst: [u32; TASKS],
}

impl Bounds {
    // No task has bounds.
    pub fn none() -> Bounds
        ensures { result ≡ unbounded }
    {
        Bounds {
            bounded: [false; TASKS],
            est: [0; TASKS],
            lst: [0; TASKS],
        }
    }

    // Put in those of one task.
    fn put(&mut self, i: usize, bounds: Option<TaskBounds>)
        requires { i < TASKS }
        ensures { self.new ≡ with_bounds self.old i bounds }
    {
        self.bounded[i] = bounds.is_some();
        let two = bounds.unwrap_or(TaskBounds { est: 0, lst: 0 });
        self.est[i] = two.est;
        self.lst[i] = two.lst;
    }

    // Put in those that `at` gives to the first n tasks.
    pub(crate) fn fill<F: Fn(usize) -> Option<TaskBounds>>(&mut self, n: usize, at: F)
        requires few { n ≤ TASKS }
        requires empty { self.old ≡ unbounded }
        requires callable { (k : ℕ) → k < n → F.pre at k }
        ensures { (f : ℕ → Option TaskBounds) → ((k : ℕ) (r : Option TaskBounds) → k < n → F.post at k r → r ≡ f k) → self.new ≡ bounds_by f n }
    {
        for i in 0..n {
            self.put(i, at(i));
        }
    }
}
