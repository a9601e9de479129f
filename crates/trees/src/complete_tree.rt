// Complete binary trees in an array: where the children and the parent of a node stand, and how many inner nodes a number of leaves needs.
ghost use Rattle.std.specs.Prelude.{◌≡◌, ◌+◌, ◌*◌, ◌-◌, ◌/◌, ◌≤◌, ◌<◌, leb};
ghost use Rattle.integers.specs.Limits.{NODES, TASKS};
ghost use Rattle.trees.specs.Arrays.{Sized};

// Returns the index of the left child of the provided index.
pub fn get_left_child_index(index: usize) -> usize
    requires { index < NODES }
    ensures { result ≡ 2 * index + 1 }
{
    2 * index + 1
}

// Returns the index of the right child of the provided index.
pub fn get_right_child_index(index: usize) -> usize
    requires { index < NODES }
    ensures { result ≡ 2 * index + 2 }
{
    2 * index + 2
}

// Returns the index of the parent of the provided index.
pub fn get_parent(index: usize) -> usize
    requires { 0 < index }
    ensures { result ≡ (index - 1) / 2 }
{
    (index - 1) / 2
}

// Returns whether the provided index is a leaf node.
pub fn is_leaf(index: usize, number_of_internal_nodes: usize) -> bool
    ensures { result ≡ leb number_of_internal_nodes index }
{
    index >= number_of_internal_nodes
}

// The size of a tree: its inner nodes, the levels above its leaves, and the leaves that have a task.
#[derive(Clone, Copy)]
pub struct TreeSize {
    pub inner: usize,
    pub height: usize,
    pub leaves: usize,
}

// The least tree with a leaf for each of `count` tasks.
pub fn size_for(count: usize) -> TreeSize
    requires { count ≤ TASKS }
    ensures { Sized count result.inner result.height × (result.leaves ≡ count) }
{
    let width = count.next_power_of_two();
    TreeSize {
        inner: width - 1,
        height: width.ilog2() as usize,
        leaves: count,
    }
}
