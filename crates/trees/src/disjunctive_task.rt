// A task, its number, and the place of its leaf in a tree: two kinds, converted only by the two mappings of the tree.
ghost use Rattle.std.specs.Prelude.{◌≡◌, ◌<◌, get_or};
ghost use Rattle.integers.specs.Limits.{TASKS};

use integers::limits::TASKS;

// The number of a task, which is also its start variable.
#[derive(Clone, Copy)]
pub struct LocalId(pub usize);

// The place of a leaf, counted from the first leaf of a tree.
#[derive(Clone, Copy)]
pub struct LeafPlace(pub usize);

// A task as a tree takes it: the lower bound of its start time, a moment, and its processing time.
#[derive(Clone, Copy)]
pub struct DisjunctiveTask {
    pub start_time: u32,
    pub processing_time: u32,
    pub id: LocalId,
}

// The leaf of a task.
pub fn leaf_of(mapping: &[u32; TASKS], id: LocalId) -> LeafPlace
    requires { id.0 < TASKS }
    ensures { result.0 ≡ get_or mapping.now id.0 0 }
{
    LeafPlace(mapping[id.0] as usize)
}

// The task of a leaf.
pub fn task_of(reverse_mapping: &[usize; TASKS], place: LeafPlace) -> LocalId
    requires { place.0 < TASKS }
    ensures { result.0 ≡ get_or reverse_mapping.now place.0 0 }
{
    LocalId(reverse_mapping[place.0])
}
