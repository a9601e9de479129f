// The formula of the source's `DisjunctiveEdgeFindingChecker`, from the bounds of the tasks.
ghost use Rattle.std.specs.Prelude.{◌≡◌, ◌<◌};
ghost use Rattle.scheduling.specs.Scheduling.{natural, Tasks, TaskSet};
ghost use Rattle.checker.specs.Formulas.{◌but◌, overloads_span, comes_after};
ghost use Rattle.checker.specs.BoundArrays.{Bounding};

use crate::intervals::gather;
use checking::start_bounds::Bounds;
use chosen_sets::theta_ect;
use integers::limits::TASKS;
use trees::ect::exceeds;

// Without a consequent: the tasks with two bounds overload their span.
pub fn overloaded(bounds: &Bounds, durations: &[u32; TASKS], n: usize) -> bool
    requires { (J : Tasks natural) × (Ω : TaskSet) × Bounding J Ω n bounds.now durations.now }
    ensures { (J : Tasks natural) (Ω : TaskSet) → Bounding J Ω n bounds.now durations.now → result ≡ overloads_span J Ω }
{
    let Some(v) = gather(bounds, durations, n) else {
        return false;
    };
    v.lb_interval + v.p > v.ub_interval
}

// With a consequent on the propagating task: it cannot start before the tasks of theta, nor among them, and these end past its latest start.
// Theta comes as all tasks with two bounds, of which the propagating task then leaves.
pub fn implied(
    theta: &mut Bounds,
    durations: &[u32; TASKS],
    n: usize,
    propagating_task: usize,
) -> bool
    requires { (propagating_task < n) × ((J : Tasks natural) × (Ω : TaskSet) × Bounding J Ω n theta.old durations.now) }
    ensures { (J : Tasks natural) (Ω : TaskSet) → Bounding J Ω n theta.old durations.now
        → result ≡ comes_after J (Ω but propagating_task) propagating_task }
{
    theta.bounded[propagating_task] = false;
    let Some(v) = gather(theta, durations, n) else {
        return false;
    };
    let start = u64::from(theta.est[propagating_task]);
    let p = u64::from(durations[propagating_task]);
    if start.min(v.lb_interval) + v.p + p <= v.ub_interval {
        return false;
    }
    let ect = theta_ect(&theta.bounded, &theta.est, durations, n);
    exceeds(ect, theta.lst[propagating_task])
}
