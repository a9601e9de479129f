// What the loop of `DisjunctiveEdgeFindingChecker` over the tasks gathers of a set: its least earliest start, its greatest latest completion, its duration sum.
// Moments are of 32 bits, and sums of them are formed in 64.
ghost use Rattle.std.specs.Prelude.{◌≡◌, ◌+◌, ◌^◌, ◌<◌};
ghost use Rattle.scheduling.specs.Scheduling.{natural, Tasks, TaskSet};
ghost use Rattle.checker.specs.BoundArrays.{Bounding, joined, interval_of};

use checking::start_bounds::Bounds;
use integers::limits::TASKS;

#[derive(Clone, Copy)]
pub struct Interval {
    pub lb_interval: u64,
    pub ub_interval: u64,
    pub p: u64,
}

impl Interval {
    // Those of two sets that have no task in common.
    fn joined(self, other: Interval) -> Interval
        requires { self.p + other.p < 2 ^ 64 }
        ensures { result ≡ joined self other }
    {
        Interval {
            lb_interval: self.lb_interval.min(other.lb_interval),
            ub_interval: self.ub_interval.max(other.ub_interval),
            p: self.p + other.p,
        }
    }
}

// The bounded ones of n tasks, where there is one.
pub fn gather(bounds: &Bounds, durations: &[u32; TASKS], n: usize) -> Option<Interval>
    requires { (J : Tasks natural) × (Ω : TaskSet) × Bounding J Ω n bounds.now durations.now }
    ensures { (J : Tasks natural) (Ω : TaskSet) → Bounding J Ω n bounds.now durations.now → result ≡ interval_of J Ω n }
{
    let mut gathered: Option<Interval> = None;
    for i in 0..n {
        if bounds.bounded[i] {
            let p = u64::from(durations[i]);
            let task = Interval {
                lb_interval: u64::from(bounds.est[i]),
                ub_interval: u64::from(bounds.lst[i]) + p,
                p,
            };
            gathered = Some(match gathered {
                Some(others) => others.joined(task),
                None => task,
            });
        }
    }
    gathered
}
