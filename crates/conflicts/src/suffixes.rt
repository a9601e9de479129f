// The longest suffix of a set, in the order of earliest starts, whose est + p is a given moment.
ghost use Rattle.std.specs.Prelude.{◌≡◌};
ghost use Rattle.conflicts.specs.Answers.{flags_of};
ghost use Rattle.conflicts.specs.Suffixes.{suffix_up_to};
ghost use Rattle.conflicts.specs.HeldTasks.{HoldsSet};

use crate::spans::span_of;
use integers::limits::TASKS;
use overload_test::task_moments::TaskMoments;
use sorts::sort_numbers;

// Tasks are taken out, the earliest first, until est + p of those left is the moment.
pub fn suffix_to(m: &TaskMoments, tasks: [bool; TASKS], moment: u32) -> [bool; TASKS]
    requires { HoldsSet m.now tasks }
    ensures { (h : HoldsSet m.now tasks) → result ≡ flags_of h.J.count (suffix_up_to h.J h.Ω moment) }
{
    let mut order: [usize; TASKS] = [0; TASKS];
    sort_numbers(&mut order, m.count, &m.est);
    let mut p = span_of(m, &tasks).p;
    let mut left = tasks;
    for &k in &order[..m.count] {
        if left[k] {
            if m.est[k] + p == moment {
                return left;
            }
            left[k] = false;
            p -= m.durations[k];
        }
    }
    left
}
