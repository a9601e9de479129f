// The tasks of a run as its core reads them.
ghost use Rattle.std.specs.Prelude.{◌≤◌, ◌<◌};
ghost use Rattle.integers.specs.Limits.{INNER, TASKS};

use explanations::theta::Theta;
use integers::limits::{TASKS, TREEWORDS};
use trees::complete_tree::TreeSize;
use trees::disjunctive_task::{DisjunctiveTask, LocalId};

// The tasks of a run in arrays, their orders, and the size of the tree over them.
#[derive(Clone, Copy)]
pub struct TaskArrays<'a> {
    // Of each task the earliest and the latest start, the latest completion and the duration.
    pub est: &'a [u32; TASKS],
    pub lst: &'a [u32; TASKS],
    pub lct: &'a [u32; TASKS],
    pub durations: &'a [u32; TASKS],
    // The leaf of each task, and the task of each leaf: the order of earliest starts.
    pub mapping: &'a [u32; TASKS],
    pub reverse_mapping: &'a [usize; TASKS],
    // The tasks by latest completion, greatest first.
    pub sorted_tasks: &'a [usize; TASKS],
    pub size: TreeSize,
    pub ghost few_tasks: { size.leaves ≤ TASKS },
    pub ghost few_nodes: { size.inner ≤ INNER },
}

impl TaskArrays<'_> {
    ghost use Rattle.propagator.specs.RunArrays.{IsTaskOf, ShowsTheta};

    // A task as the tree takes it.
    pub fn task(&self, id: LocalId) -> DisjunctiveTask
        requires { id.0 < TASKS }
        ensures { IsTaskOf self.now id.0 result }
    {
        let i = id.0;
        DisjunctiveTask {
            start_time: self.est[i],
            processing_time: self.durations[i],
            id,
        }
    }

    // Theta as the words of the tree show it. A field that becomes a slice is copied first.
    pub fn theta<'b>(&'b self, nodes: &'b [u32; TREEWORDS]) -> Theta<'b>
        ensures { ShowsTheta self.now nodes.now result }
    {
        let est = self.est;
        let durations = self.durations;
        Theta {
            nodes,
            reverse_mapping: self.reverse_mapping,
            inner: self.size.inner,
            n: self.size.leaves,
            est,
            durations,
        }
    }
}
