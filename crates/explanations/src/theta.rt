// Θ as it stands in the leaves of a tree.
ghost use Rattle.std.specs.Prelude.{◌≤◌};
ghost use Rattle.integers.specs.Limits.{TASKS, INNER};

use integers::limits::{TASKS, TREEWORDS};

// The words of the tree, the task of each leaf, how many inner nodes and how many tasks the tree has, and by task the earliest starts, as moments, and the
// durations.
#[derive(Clone, Copy)]
pub struct Theta<'a> {
    pub nodes: &'a [u32; TREEWORDS],
    pub reverse_mapping: &'a [usize; TASKS],
    pub inner: usize,
    pub n: usize,
    pub est: &'a [u32],
    pub durations: &'a [u32],
    pub ghost tasks: { n ≤ TASKS },
    pub ghost inner_nodes: { inner ≤ INNER },
}
