// The tasks that must come before a task, and their ect. Starts are moments.
ghost use Rattle.std.specs.Prelude.{◌≡◌, not, ◌&&◌, false, ◌<◌, eqb, ltb, replicate};
ghost use Rattle.integers.specs.FilledLists.{filled};
ghost use Rattle.integers.specs.Limits.{TASKS};
ghost use Rattle.scheduling.specs.Scheduling.{natural, Tasks};
ghost use Rattle.trees.specs.Ects.{moment_of};
ghost use Rattle.precedences.specs.PredecessorArrays.{precedes_at, bound_at, HoldsRanges};

use crate::range_moments::RangeMoments;
use chosen_sets::theta_ect;
use integers::limits::TASKS;

// Whether task j, with its latest start, must come before task i, which ends at `end` or later.
fn precedes(j: usize, latest: u32, i: usize, end: u32) -> bool
    ensures { result ≡ not (eqb j i) && ltb latest end }
{
    j != i && latest < end
}

// Which tasks must come before task i.
pub fn predecessors(m: &RangeMoments, i: usize) -> [bool; TASKS]
    requires { (J : Tasks natural) × HoldsRanges J m.now × (i < m.now.count) }
    ensures { result ≡ filled (precedes_at m.now i) m.now.count (replicate TASKS false) }
{
    let end = m.est[i] + m.durations[i];
    let mut before = [false; TASKS];
    for j in 0..m.count {
        before[j] = precedes(j, m.lst[j], i, end);
    }
    before
}

// The ect of the tasks that must come before task i, or that there are none.
pub fn bound_of(m: &RangeMoments, i: usize) -> Option<u32>
    requires { (J : Tasks natural) × HoldsRanges J m.now × (i < m.now.count) }
    ensures { (J : Tasks natural) → HoldsRanges J m.now → moment_of result ≡ bound_at J i }
{
    let before = predecessors(m, i);
    theta_ect(&before, &m.est, &m.durations, m.count)
}
