// The theta-lambda tree: the ect of a set of tasks Theta, also with at most one task of a second set Lambda added.
//
// Its leaves stand for the tasks in order of earliest start, so that a node's values follow from those of its children. All numbers are moments and
// durations; a node with no task has the word 0 for an ect, a coding that `ect::decoded` undoes where the tree answers. The nodes stand as words, four to a
// node, which only `new` and the nodes' `load`, `store` and `store_bars` know, and the operations borrow the words alone, so that none copies the tree.
ghost use Rattle.std.specs.Prelude.{◌≡◌, ℕ, ◌+◌, ◌*◌, ◌-◌, ◌/◌, ◌≤◌, ◌<◌, length};
ghost use Rattle.integers.specs.Limits.{INNER, NODES, TASKS, TREEWORDS};
ghost use Rattle.trees.specs.Ects.{moment_of};
ghost use Rattle.trees.specs.Nodes.{join_of};
ghost use Rattle.trees.specs.NodeBounds.{Fair, size};
ghost use Rattle.trees.specs.Arrays.{leftmost, leaves_of, TreeOf};
ghost use Rattle.trees.specs.Words.{node_at};
ghost use Rattle.trees.specs.Bounds.{NeedsUpheap};
ghost use Rattle.trees.specs.Puts.{Puttable, Put, white_part, WhiteJoins, Liftable, Layable, Laid};
ghost use Rattle.trees.specs.Searches.{search_p, search_ect};
ghost use Rattle.trees.specs.ArraySearches.{Searchable, around_of, found_at, white_in, Next};
ghost use Rattle.trees.specs.Leaves.{empty, white, gray, ect, ect_bar_of, sum};
ghost use Rattle.trees.specs.Trees.{IsTree};
ghost use Rattle.trees.specs.Operations.{Held, HeldLeaves, New, Answers, Tall, Responds, HasPlace, InLambda, Coloured, LeafColoured};

use crate::array_tree::{TreeNode, put, rejoin};
use crate::complete_tree::{
    get_left_child_index, get_parent, get_right_child_index, is_leaf, size_for,
};
use crate::disjunctive_task::{DisjunctiveTask, LeafPlace, LocalId, task_of};
use crate::ect::decoded;
use crate::theta_lambda_node::{Around, EctBarDescent, Node, PDescent};
use integers::limits::{NODES, TASKS, TREEWORDS};

// No position: there are as many nodes. A search answers with a number, not with an Option, so that a call at its end needs no room of its own: the searches
// were measured, and kept for their speed (docs/BENCHMARKS.md, "What was tried").
const NOWHERE: usize = NODES;

// A structure for efficiently calculating the ECT of a set of tasks while only allowing one element from another (non-overlapping) set: its nodes, as words,
// and its size.
//
// The implementation is based on [1]. The idea is to have a complete binary tree where the leaf nodes represent the tasks. These leaf nodes are sorted by EST,
// and this allows the values of the inner nodes to be calculated using a recursive formula.
//
// Bibliography
// - [1] P. Vilím, ‘Filtering algorithms for the unary resource constraint’, Archives of Control Sciences, vol. 18, no. 2, pp. 159–202, 2008.
#[derive(Clone, Copy)]
pub struct ThetaLambdaTree {
    pub nodes: [u32; TREEWORDS],
    pub number_of_internal_nodes: usize,
    pub height: usize,
}

// The operations take the words of the tree and the number of its internal nodes, `inner`.
impl ThetaLambdaTree {
    // The tree for `count` tasks, with no task in Theta or Lambda.
    pub fn new(count: usize) -> ThetaLambdaTree
        requires { count ≤ TASKS }
        ensures { New count result }
    {
        let size = size_for(count);
        ThetaLambdaTree {
            nodes: [0; TREEWORDS],
            number_of_internal_nodes: size.inner,
            height: size.height,
        }
    }

    // Returns the earliest completion time of Theta.
    #[tactic(auto, using(crate::proofs::Trees::root_of))]
    pub fn ect(nodes: &[u32; TREEWORDS]) -> Option<u32>
        ensures { Answers ect nodes.now (moment_of result) }
    {
        let root = Node::load(nodes, 0);
        decoded(root.ect)
    }

    // Returns the earliest completion time of Theta while allowing one element of Lambda to be added.
    #[tactic(auto, using(crate::proofs::Trees::root_of))]
    pub fn ect_bar(nodes: &[u32; TREEWORDS]) -> Option<u32>
        ensures { Answers ect_bar_of nodes.now (moment_of result) }
    {
        let root = Node::load(nodes, 0);
        decoded(root.ect_bar)
    }

    // Returns the total sum of processing times of the elements in the set theta.
    #[tactic(auto, using(crate::proofs::Trees::root_of))]
    pub fn sum_of_processing_times(nodes: &[u32; TREEWORDS]) -> u32
        ensures { Answers sum nodes.now result }
    {
        let root = Node::load(nodes, 0);
        root.sum_of_processing_times
    }

    // Returns the place of the leaf at the provided position.
    fn get_leaf_node_index(position: usize, inner: usize) -> LeafPlace
        requires { inner ≤ position }
        ensures { result.0 ≡ position - inner }
    {
        LeafPlace(position - inner)
    }

    // Returns the task in Lambda which was responsible for the value of `ect_bar`, or none.
    pub fn responsible_ect_bar<'a>(
        nodes: &'a [u32; TREEWORDS],
        reverse_mapping: &'a [usize; TASKS],
        inner: usize,
        height: usize,
    ) -> Option<LocalId>
        requires { (h : Held inner nodes.now) × Tall h height }
        ensures { Responds inner height nodes.now reverse_mapping.now result }
    {
        let found = ThetaLambdaTree::responsible_index_ect_bar_internal(nodes, inner, 0, height);
        if found == NOWHERE {
            return None;
        }
        let place = ThetaLambdaTree::get_leaf_node_index(found, inner);
        Some(task_of(reverse_mapping, place))
    }

    // What a search reads at a node.
    #[tactic(auto, using(crate::proofs::SearchSteps::reads))]
    fn around(nodes: &[u32; TREEWORDS], inner: usize, position: usize) -> Around
        requires { (h : ℕ) × Searchable inner h position (node_at nodes.now) }
        ensures { result ≡ around_of inner (node_at nodes.now) position }
    {
        let node = Node::load(nodes, position);
        if is_leaf(position, inner) {
            return Around::Leaf(node);
        }
        let l = Node::load(nodes, get_left_child_index(position));
        let r = Node::load(nodes, get_right_child_index(position));
        Around::Inner(node, l, r)
    }

    // The leaf of the gray task, searched by ects below a node of the provided height.
    #[tactic(auto, using(crate::proofs::SearchSteps::by_ects))]
    fn responsible_index_ect_bar_internal(
        nodes: &[u32; TREEWORDS],
        inner: usize,
        position: usize,
        height: usize,
    ) -> usize
        requires { Searchable inner height position (node_at nodes.now) }
        ensures { result ≡ found_at inner (search_ect (leaves_of inner (node_at nodes.now)) height (leftmost height position - inner)) }
    {
        let around = ThetaLambdaTree::around(nodes, inner, position);
        let left = get_left_child_index(position);
        let right = get_right_child_index(position);
        let step = around.step_ect_bar();
        match step {
            EctBarDescent::Right => {
                ThetaLambdaTree::responsible_index_ect_bar_internal(nodes, inner, right, height - 1)
            }
            EctBarDescent::RightP => {
                ThetaLambdaTree::responsible_index_p_internal(nodes, inner, right, height - 1)
            }
            EctBarDescent::Left => {
                ThetaLambdaTree::responsible_index_ect_bar_internal(nodes, inner, left, height - 1)
            }
            EctBarDescent::Here => position,
            EctBarDescent::Nothing => NOWHERE,
        }
    }

    // The leaf of the gray task, searched by sums below a node of the provided height.
    #[tactic(auto, using(crate::proofs::SearchSteps::by_sums))]
    fn responsible_index_p_internal(
        nodes: &[u32; TREEWORDS],
        inner: usize,
        position: usize,
        height: usize,
    ) -> usize
        requires { Searchable inner height position (node_at nodes.now) }
        ensures { result ≡ found_at inner (search_p (leaves_of inner (node_at nodes.now)) height (leftmost height position - inner)) }
    {
        let around = ThetaLambdaTree::around(nodes, inner, position);
        let left = get_left_child_index(position);
        let right = get_right_child_index(position);
        let step = around.step_p();
        match step {
            PDescent::Left => {
                ThetaLambdaTree::responsible_index_p_internal(nodes, inner, left, height - 1)
            }
            PDescent::Right => {
                ThetaLambdaTree::responsible_index_p_internal(nodes, inner, right, height - 1)
            }
            PDescent::Here => position,
            PDescent::Nothing => NOWHERE,
        }
    }

    // Adds the provided task to Lambda.
    pub fn add_to_lambda(
        nodes: &mut [u32; TREEWORDS],
        inner: usize,
        place: LeafPlace,
        task: DisjunctiveTask,
    )
        requires { (h : Held inner nodes.old) × HasPlace h.J h.est_order place.0 task }
        ensures { (h : Held inner nodes.old) → HasPlace h.J h.est_order place.0 task
            → Coloured gray h place.0 nodes.new }
    {
        let ect = task.start_time + task.processing_time;
        let n = Node::new_gray_node(ect, task.processing_time);
        put(nodes, inner, place, n);
    }

    // Removes a task from Theta.
    pub fn remove_from_theta(nodes: &mut [u32; TREEWORDS], inner: usize, place: LeafPlace)
        requires { (h : Held inner nodes.old) × (place.0 < h.J.count) }
        ensures { (h : Held inner nodes.old) → place.0 < h.J.count → Coloured empty h place.0 nodes.new }
    {
        put(nodes, inner, place, Node::empty());
    }

    // Removes a task from Lambda.
    pub fn remove_from_lambda(nodes: &mut [u32; TREEWORDS], inner: usize, place: LeafPlace)
        requires { (h : Held inner nodes.old) × InLambda h place.0 }
        ensures { (h : Held inner nodes.old) → InLambda h place.0 → Coloured empty h place.0 nodes.new }
    {
        ThetaLambdaTree::put_bars(nodes, inner, place, Node::empty());
    }

    // A leaf becomes the provided node, which differs from it in its bars alone: so do the leaf's ancestors.
    fn put_bars(nodes: &mut [u32; TREEWORDS], inner: usize, place: LeafPlace, n: Node)
        requires { Puttable size Fair join_of node_at TREEWORDS inner nodes.old place.0 n × (white_part (node_at nodes.old (inner + place.0)) ≡ white_part n) }
        ensures { Put join_of node_at TREEWORDS inner nodes.old nodes.new place.0 n }
    {
        let position = inner + place.0;
        Node::store_bars(nodes, position, n);
        ThetaLambdaTree::upheap_bars(nodes, inner, position);
    }

    // A leaf becomes the provided node, and its ancestors are left to `rebuild`.
    fn lay(nodes: &mut [u32; TREEWORDS], inner: usize, place: LeafPlace, n: Node)
        requires { Layable inner nodes.old place.0 n }
        ensures { Laid inner nodes.old nodes.new place.0 n }
    {
        let position = inner + place.0;
        Node::store(nodes, position, n);
    }

    // Adds the provided task to Theta, but for the leaf's ancestors.
    pub fn lay_in_theta(
        nodes: &mut [u32; TREEWORDS],
        inner: usize,
        place: LeafPlace,
        task: DisjunctiveTask,
    )
        requires { (l : HeldLeaves inner nodes.old) × HasPlace l.J l.est_order place.0 task }
        ensures { (l : HeldLeaves inner nodes.old) → HasPlace l.J l.est_order place.0 task
            → LeafColoured white l place.0 nodes.new }
    {
        let ect = task.start_time + task.processing_time;
        let n = Node::new_white_node(ect, task.processing_time);
        ThetaLambdaTree::lay(nodes, inner, place, n);
    }

    // Adds the provided task to Lambda, but for the leaf's ancestors.
    pub fn lay_in_lambda(
        nodes: &mut [u32; TREEWORDS],
        inner: usize,
        place: LeafPlace,
        task: DisjunctiveTask,
    )
        requires { (l : HeldLeaves inner nodes.old) × HasPlace l.J l.est_order place.0 task }
        ensures { (l : HeldLeaves inner nodes.old) → HasPlace l.J l.est_order place.0 task
            → LeafColoured gray l place.0 nodes.new }
    {
        let ect = task.start_time + task.processing_time;
        let n = Node::new_gray_node(ect, task.processing_time);
        ThetaLambdaTree::lay(nodes, inner, place, n);
    }

    // Removes a task from Theta, but for the leaf's ancestors.
    pub fn lay_empty(nodes: &mut [u32; TREEWORDS], inner: usize, place: LeafPlace)
        requires { (l : HeldLeaves inner nodes.old) × (place.0 < l.J.count) }
        ensures { (l : HeldLeaves inner nodes.old) → place.0 < l.J.count
            → LeafColoured empty l place.0 nodes.new }
    {
        ThetaLambdaTree::lay(nodes, inner, place, Node::empty());
    }

    // Calculates the values of all inner nodes, the last ones first.
    pub fn rebuild(nodes: &mut [u32; TREEWORDS], inner: usize)
        requires { HeldLeaves inner nodes.old }
        ensures { (l : HeldLeaves inner nodes.old) → IsTree l.J l.est_order l.leaves inner nodes.new }
    {
        for i in (0..inner).rev() {
            rejoin::<Node>(nodes, i);
        }
    }

    // Calculates the new bars for the ancestors of the provided index, whose other values stay.
    fn upheap_bars(nodes: &mut [u32; TREEWORDS], inner: usize, index: usize)
        requires { NeedsUpheap size Fair join_of inner (node_at nodes.old) index × (length nodes.old ≡ TREEWORDS)
            × WhiteJoins inner (node_at nodes.old) }
        ensures { TreeOf join_of inner (leaves_of inner (node_at nodes.old)) (node_at nodes.new)
            × (length nodes.new ≡ TREEWORDS) }
    {
        let mut i = index;
        let mut n = Node::load(nodes, index);
        while i != 0 {
            let parent = get_parent(i);
            n = ThetaLambdaTree::joined_above(nodes, i, n);
            Node::store_bars(nodes, parent, n);
            i = parent;
        }
    }

    // The parent of node i, where node i is n. The bars come from n and its sibling: those of n were stored last, and reading them would wait for the store.
    fn joined_above(nodes: &[u32; TREEWORDS], i: usize, n: Node) -> Node
        requires { Liftable (node_at nodes.now) i n }
        ensures { result ≡ join_of (node_at nodes.now (2 * ((i - 1) / 2) + 1)) (node_at nodes.now (2 * ((i - 1) / 2) + 2)) }
    {
        let parent = get_parent(i);
        let left = get_left_child_index(parent);
        let right = get_right_child_index(parent);
        let odd = i % 2;
        let sibling = Node::load(nodes, i + 2 * odd - 1);
        let l = Node::load(nodes, left);
        let r = Node::load(nodes, right);
        let is_left = odd == 1;
        Node::join(
            l.with_bars(is_left, n, sibling),
            r.with_bars(is_left, sibling, n),
        )
    }

    // Returns the place of the first leaf from `place` on, below `count`, whose task is in Theta, or `count` where there is none. The source collects these
    // leaves' tasks in a list (`get_theta`); here the caller goes over the leaves.
    #[tactic(auto, unfolding(crate::specs::ArraySearches::white_in))]
    pub fn next_in_theta(
        nodes: &[u32; TREEWORDS],
        inner: usize,
        place: LeafPlace,
        count: usize,
    ) -> LeafPlace
        requires { (place.0 ≤ count) × (count ≤ TASKS) × (inner ≤ INNER) }
        ensures { Next (white_in nodes.now inner) place.0 count result.0 }
    {
        for x in place.0..count {
            let leaf = Node::load(nodes, inner + x);
            if leaf.ect != 0 {
                return LeafPlace(x);
            }
        }
        LeafPlace(count)
    }
}
