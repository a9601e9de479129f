// The ect of a set of tasks, by the textbook's recurrence over the tasks by earliest start.
#![tactic(auto)]

ghost use Rattle.std.specs.Prelude.{◌≡◌, ◌+◌, ◌≤◌, max};
ghost use Rattle.integers.specs.Limits.{U32MAX};
ghost use Rattle.scheduling.specs.Scheduling.{natural, Tasks, TaskSet};
ghost use Rattle.scheduling.specs.Ects.{ect_of};
ghost use Rattle.trees.specs.Ects.{moment_of};
ghost use Rattle.chosen_sets.specs.TaskArrays.{HeldSet, completed};

use integers::limits::TASKS;
use sorts::sort_numbers;
use trees::ect::decoded;

// The ect with one task more, where it is chosen. 0 is that of no task, since a task lasts 1 or more. What it would be is calculated in any case, so that no
// branch depends on the choice.
fn completed(ect: u32, chosen: bool, est: u32, p: u32) -> u32
    requires { max ect est + p ≤ U32MAX }
    ensures { result ≡ completed ect chosen est p }
{
    let with_it = ect.max(est) + p;
    if chosen { with_it } else { ect }
}

// The ect of the chosen ones of n tasks, or that none is chosen.
pub fn theta_ect<'a>(
    chosen: &'a [bool; TASKS],
    est: &'a [u32; TASKS],
    durations: &'a [u32; TASKS],
    n: usize,
) -> Option<u32>
    requires { (J : Tasks natural) × (Ω : TaskSet) × HeldSet J Ω n chosen.now est.now durations.now }
    ensures { (J : Tasks natural) (Ω : TaskSet) → HeldSet J Ω n chosen.now est.now durations.now
        → moment_of result ≡ ect_of J Ω }
{
    let mut order = [0; TASKS];
    sort_numbers(&mut order, n, est);
    let mut ect = 0;
    for &i in &order[..n] {
        ect = completed(ect, chosen[i], est[i], durations[i]);
    }
    decoded(ect)
}
