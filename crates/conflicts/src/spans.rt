// The est, the lct and the p of a set of tasks, in moments.
ghost use Rattle.std.specs.Prelude.{◌≡◌, ◌+◌, ◌^◌, ◌≤◌, ◌<◌};
ghost use Rattle.conflicts.specs.Spans.{with_task, past_by, work_with, span_of};
ghost use Rattle.conflicts.specs.HeldTasks.{HoldsSet};

use crate::answer::Work;
use integers::limits::TASKS;
use integers::moments::start_of;
use overload_test::task_moments::TaskMoments;

#[derive(Clone, Copy)]
pub struct Span {
    pub est: u32,
    pub lct: u32,
    pub p: u32,
}

impl Span {
    // With one task more, where it is a member.
    fn with(self, member: bool, est: u32, lct: u32, p: u32) -> Span
        requires { self.p + p < 2 ^ 32 }
        ensures { result ≡ with_task member est lct p self }
    {
        if member {
            return Span {
                est: self.est.min(est),
                lct: self.lct.max(lct),
                p: self.p + p,
            };
        }
        self
    }

    // By how much est + p is past a moment.
    pub fn past(self, lct: u32) -> u32
        requires { (lct ≤ self.est + self.p) × (self.est + self.p < 2 ^ 32) }
        ensures { result ≡ past_by self lct }
    {
        self.est + self.p - lct
    }
}

// The span of a set.
pub fn span_of(m: &TaskMoments, tasks: &[bool; TASKS]) -> Span
    requires { HoldsSet m.now tasks.now }
    ensures { (h : HoldsSet m.now tasks.now) → result ≡ span_of h.J h.Ω }
{
    let mut span = Span {
        est: u32::MAX,
        lct: 0,
        p: 0,
    };
    for k in 0..m.count {
        span = span.with(tasks[k], m.est[k], m.lct[k], m.durations[k]);
    }
    span
}

// A set with its est and its p in the caller's time.
pub fn work_of(tasks: [bool; TASKS], span: Span) -> Work
    ensures { result ≡ work_with tasks span }
{
    Work {
        tasks,
        est: start_of(span.est),
        p: span.p,
    }
}
