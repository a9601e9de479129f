// Trees whose nodes stand as words of an array, at any type of nodes: how a node is read, written and calculated, and how a leaf is put.
ghost use Rattle.std.specs.Prelude.{◌≡◌, List, ℕ, ◌+◌, ◌*◌, ◌<◌, length};
ghost use Rattle.integers.specs.Limits.{NODES};
ghost use Rattle.trees.specs.Arrays.{changed, leaves_of, TreeOf};
ghost use Rattle.trees.specs.NodeBounds.{Fits, Additive};
ghost use Rattle.trees.specs.Bounds.{NeedsUpheap};
ghost use Rattle.trees.specs.Puts.{Joinable, Puttable, Put};

use crate::complete_tree::{get_left_child_index, get_parent, get_right_child_index};
use crate::disjunctive_task::LeafPlace;

// A type of nodes: each stands as words of an array, and a parent's values follow from those of its children.
pub trait TreeNode: Copy {
    // How many words the array has, and its i-th node.
    ghost words: { ℕ };

    ghost at: { List ℕ → ℕ → Self };

    // What keeps the numbers of a node within 32 bits.
    ghost size: { Self → ℕ };

    ghost Fair: { Self → Type 0 };

    // A parent from its children, which stays fair and is at most as large as they are together.
    ghost join_of: { Self → Self → Self };

    ghost additive: { Additive size Fair join_of };

    // The i-th node of the words.
    fn load(nodes: &[u32], i: usize) -> Self
        requires { (i < NODES) × (length nodes.now ≡ words) }
        ensures { result ≡ at nodes.now i };

    // The i-th node of the words becomes n.
    fn store(nodes: &mut [u32], i: usize, n: Self)
        requires { (i < NODES) × (length nodes.old ≡ words) }
        ensures { (at nodes.new ≡ changed (at nodes.old) i n) × (length nodes.new ≡ words) };

    // A parent from its children.
    fn join(l: Self, r: Self) -> Self
        requires { Fits size Fair l × Fits size Fair r }
        ensures { result ≡ join_of l r };
}

// Node i becomes the join of its children.
pub(crate) fn rejoin<N: TreeNode>(nodes: &mut [u32], i: usize)
    requires { Joinable N.size N.Fair (N.at nodes.old) i × (length nodes.old ≡ N.words) }
    ensures { (N.at nodes.new ≡ changed (N.at nodes.old) i (N.join_of (N.at nodes.old (2 * i + 1)) (N.at nodes.old (2 * i + 2))))
        × (length nodes.new ≡ N.words) }
{
    let l = N::load(nodes, get_left_child_index(i));
    let r = N::load(nodes, get_right_child_index(i));
    N::store(nodes, i, N::join(l, r));
}

// Calculates the new values for the ancestors of the provided index.
pub(crate) fn upheap<N: TreeNode>(nodes: &mut [u32], inner: usize, index: usize)
    requires { NeedsUpheap N.size N.Fair N.join_of inner (N.at nodes.old) index × (length nodes.old ≡ N.words) }
    ensures { TreeOf N.join_of inner (leaves_of inner (N.at nodes.old)) (N.at nodes.new)
        × (length nodes.new ≡ N.words) }
{
    let mut i = index;
    while i != 0 {
        i = get_parent(i);
        rejoin::<N>(nodes, i);
    }
}

// A leaf becomes the provided node.
pub(crate) fn put<N: TreeNode>(nodes: &mut [u32], inner: usize, place: LeafPlace, n: N)
    requires { Puttable N.size N.Fair N.join_of N.at N.words inner nodes.old place.0 n }
    ensures { Put N.join_of N.at N.words inner nodes.old nodes.new place.0 n }
{
    let position = inner + place.0;
    N::store(nodes, position, n);
    upheap::<N>(nodes, inner, position);
}
