// The bounds of the tasks in mirrored time.
ghost use Rattle.std.specs.Prelude.{◌≡◌, ◌+◌, ◌≤◌, ◌<◌};
ghost use Rattle.scheduling.specs.Scheduling.{natural, Tasks, TaskSet};
ghost use Rattle.checker.specs.BoundArrays.{moment_mirrored, mirrored_bounds, Bounding};

use checking::start_bounds::Bounds;
use integers::limits::TASKS;

// The moment of −(x + p), from that of x; 0 where the task has no two bounds.
fn mirrored_moment(known: bool, t: u32, p: u32) -> u32
    requires { (1 ≤ p) × (t + p < 4294967296) }
    ensures { result ≡ moment_mirrored known t p }
{
    if !known {
        return 0;
    }
    u32::MAX - (t + p) + 1
}

// The bounds become those in mirrored time: a range a..b with duration p becomes −(b + p)..−(a + p).
pub fn mirror_bounds(bounds: &mut Bounds, durations: &[u32; TASKS], n: usize)
    requires { (J : Tasks natural) × (Ω : TaskSet) × Bounding J Ω n bounds.old durations.now }
    ensures { bounds.new ≡ mirrored_bounds bounds.old durations.now n }
{
    for i in 0..n {
        let known = bounds.bounded[i];
        let p = durations[i];
        let from = mirrored_moment(known, bounds.lst[i], p);
        bounds.lst[i] = mirrored_moment(known, bounds.est[i], p);
        bounds.est[i] = from;
    }
}
