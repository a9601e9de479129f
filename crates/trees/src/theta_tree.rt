// The theta tree: the ect of a set of tasks Theta.
//
// Its leaves stand for the tasks in order of earliest start, so that a node's values follow from those of its children. All numbers are moments and
// durations; a node with no task has the word 0 for its ect, a coding that `ect::decoded` undoes where the tree answers. The nodes stand as words, two to a
// node, which only `new` and the nodes' `load` and `store` know, and the operations borrow the words alone, so that none copies the tree.
ghost use Rattle.std.specs.Prelude.{◌+◌, ◌≤◌, ◌<◌};
ghost use Rattle.integers.specs.Limits.{TASKS, THETAWORDS};
ghost use Rattle.trees.specs.Ects.{moment_of};
ghost use Rattle.trees.specs.Leaves.{ect};
ghost use Rattle.trees.specs.Operations.{HasPlace};
ghost use Rattle.trees.specs.PlainOperations.{HeldPlain, PlainNew, PlainAnswers, PlainWhitened};

use crate::array_tree::{TreeNode, put};
use crate::complete_tree::size_for;
use crate::disjunctive_task::{DisjunctiveTask, LeafPlace};
use crate::ect::decoded;
use crate::theta_node::Node;
use integers::limits::THETAWORDS;

// A structure for efficiently calculating the ECT of a set of tasks.
//
// The implementation is based on [1]. The idea is to have a complete binary tree where the leaf nodes represent the tasks. These leaf nodes are sorted by EST,
// and this allows the values of the inner nodes to be calculated using a recursive formula.
//
// Bibliography
// - [1] P. Vilím, ‘Filtering algorithms for the unary resource constraint’, Archives of Control Sciences, vol. 18, no. 2, pp. 159–202, 2008.
#[derive(Clone, Copy)]
pub struct ThetaTree {
    pub nodes: [u32; THETAWORDS],
    pub number_of_internal_nodes: usize,
}

// The operations take the words of the tree and the number of its internal nodes, `inner`.
impl ThetaTree {
    // The tree for `count` tasks, with no task in Theta.
    pub fn new(count: usize) -> ThetaTree
        requires { count ≤ TASKS }
        ensures { PlainNew count result }
    {
        let size = size_for(count);
        ThetaTree {
            nodes: [0; THETAWORDS],
            number_of_internal_nodes: size.inner,
        }
    }

    // Returns the earliest completion time of Theta.
    #[tactic(auto, using(crate::proofs::Trees::plain_root_of))]
    pub fn ect(nodes: &[u32; THETAWORDS]) -> Option<u32>
        ensures { PlainAnswers ect nodes.now (moment_of result) }
    {
        let root = Node::load(nodes, 0);
        decoded(root.ect)
    }

    // Adds the provided task to Theta.
    pub fn add(nodes: &mut [u32; THETAWORDS], inner: usize, place: LeafPlace, task: DisjunctiveTask)
        requires { (h : HeldPlain inner nodes.old) × HasPlace h.J h.est_order place.0 task }
        ensures { (h : HeldPlain inner nodes.old) → HasPlace h.J h.est_order place.0 task
            → PlainWhitened h place.0 nodes.new }
    {
        let ect = task.start_time + task.processing_time;
        let n = Node::new(ect, task.processing_time);
        put(nodes, inner, place, n);
    }
}
