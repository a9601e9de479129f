// The nodes of the theta-lambda tree: the values of a node, those of a parent from its children, and the step of each search for the responsible task at a
// node.
ghost use Rattle.std.specs.Prelude.{cond, ◌≡◌, ◌<◌, length};
ghost use Rattle.integers.specs.Limits.{NODES, TREEWORDS};
ghost use Rattle.trees.specs.Arrays.{changed};
ghost use Rattle.trees.specs.Puts.{white_part};
ghost use Rattle.trees.specs.Nodes.{empty_of, white_of, gray_of, join_of, is_empty};
ghost use Rattle.trees.specs.NodeBounds.{Fair, size, Fits};
ghost use Rattle.trees.specs.NodeLaws.{additive};
ghost use Rattle.trees.specs.Words.{node_at};
ghost use Rattle.trees.specs.Descents.{gray, tested, descent_by_p, descent_by_ect};
ghost use Rattle.trees.specs.SearchSteps.{AroundFits, step_at_p, step_at_ect};

use crate::array_tree::TreeNode;

// A node which keeps track of the ect and the sum of processing times of the tasks below it, and of both if a single gray task can be added.
#[derive(Clone, Copy)]
pub struct Node {
    pub ect: u32,
    pub sum_of_processing_times: u32,
    pub ect_bar: u32,
    pub sum_of_processing_times_bar: u32,
}

// Where the search by sums goes on.
#[derive(Clone, Copy)]
pub enum PDescent {
    Left,
    Right,
    Here,
    Nothing,
}

// Where the search by ects goes on: right by ects, right by sums, or left by ects.
#[derive(Clone, Copy)]
pub enum EctBarDescent {
    Right,
    RightP,
    Left,
    Here,
    Nothing,
}

// What a search reads at a node: a leaf, or an inner node with its children.
#[derive(Clone, Copy)]
pub enum Around {
    Leaf(Node),
    Inner(Node, Node, Node),
}

// One of two words.
fn pick(first: bool, a: u32, b: u32) -> u32
    ensures { result ≡ cond first a b }
{
    if first {
        return a;
    }
    b
}

impl Node {
    // Constructs an empty node.
    pub fn empty() -> Node
        ensures { result ≡ empty_of }
    {
        Node {
            ect: 0,
            sum_of_processing_times: 0,
            ect_bar: 0,
            sum_of_processing_times_bar: 0,
        }
    }

    // Constructs a new white node with the provided value.
    pub fn new_white_node(ect: u32, sum_of_processing_times: u32) -> Node
        ensures { result ≡ white_of ect sum_of_processing_times }
    {
        Node {
            ect,
            sum_of_processing_times,
            ect_bar: ect,
            sum_of_processing_times_bar: sum_of_processing_times,
        }
    }

    // Constructs a new gray node with the provided value.
    pub fn new_gray_node(ect: u32, sum_of_processing_times: u32) -> Node
        ensures { result ≡ gray_of ect sum_of_processing_times }
    {
        Node {
            ect: 0,
            sum_of_processing_times: 0,
            ect_bar: ect,
            sum_of_processing_times_bar: sum_of_processing_times,
        }
    }

    // One of two nodes, whose ect and sum are those of this node. `pick` compiles to no branch: a guess of which would be wrong half of the time.
    pub fn with_bars(self, first: bool, a: Node, b: Node) -> Node
        ensures { white_part self ≡ white_part (cond first a b) → result ≡ cond first a b }
    {
        Node {
            ect: self.ect,
            sum_of_processing_times: self.sum_of_processing_times,
            ect_bar: pick(first, a.ect_bar, b.ect_bar),
            sum_of_processing_times_bar: pick(
                first,
                a.sum_of_processing_times_bar,
                b.sum_of_processing_times_bar,
            ),
        }
    }

    // The i-th node of the words becomes n, whose ect and sum it has already.
    pub(crate) fn store_bars(nodes: &mut [u32], i: usize, n: Node)
        requires { (i < NODES) × (length nodes.old ≡ TREEWORDS) × (white_part (node_at nodes.old i) ≡ white_part n) }
        ensures { (node_at nodes.new ≡ changed (node_at nodes.old) i n) × (length nodes.new ≡ TREEWORDS) }
    {
        let k = 4 * i;
        nodes[k + 2] = n.ect_bar;
        nodes[k + 3] = n.sum_of_processing_times_bar;
    }

    // Whether the node is the empty one: every task lasts 1 or more, so that any other node has a sum with its gray task.
    fn is_empty(self) -> bool
        requires { Fair self }
        ensures { result ≡ is_empty self }
    {
        self.sum_of_processing_times_bar == 0
    }

    // Whether a leaf has a gray task.
    #[tactic(auto, unfolding(crate::specs::Descents::gray))]
    fn is_gray(self) -> bool
        ensures { result ≡ gray self }
    {
        self.ect_bar != 0 && self.ect == 0
    }

    // The node is not empty, and the value is this one.
    #[tactic(auto, unfolding(crate::specs::Descents::tested))]
    fn tested(self, value: u32, this: u32) -> bool
        requires { Fair self }
        ensures { result ≡ tested self value this }
    {
        value == this && !self.is_empty()
    }

    // The child of a node whose sum bar has the node's gray task.
    #[tactic(auto, unfolding(crate::specs::Descents::descent_by_p))]
    fn descent_p(n: Node, l: Node, r: Node) -> PDescent
        requires { Fits size Fair l × Fits size Fair r }
        ensures { result ≡ descent_by_p n l r }
    {
        let bar = n.sum_of_processing_times_bar;
        if l.tested(
            bar,
            l.sum_of_processing_times_bar + r.sum_of_processing_times,
        ) {
            return PDescent::Left;
        }
        if r.tested(
            bar,
            l.sum_of_processing_times + r.sum_of_processing_times_bar,
        ) {
            return PDescent::Right;
        }
        PDescent::Nothing
    }

    // The child of a node that has the gray task of the node's ect bar, and in which of its bars.
    #[tactic(auto, unfolding(crate::specs::Descents::descent_by_ect))]
    fn descent_ect_bar(n: Node, l: Node, r: Node) -> EctBarDescent
        requires { Fits size Fair l × Fits size Fair r }
        ensures { result ≡ descent_by_ect n l r }
    {
        let bar = n.ect_bar;
        if r.tested(bar, r.ect_bar) {
            return EctBarDescent::Right;
        }
        if r.tested(bar, l.ect + r.sum_of_processing_times_bar) {
            return EctBarDescent::RightP;
        }
        if l.tested(bar, l.ect_bar + r.sum_of_processing_times) {
            return EctBarDescent::Left;
        }
        EctBarDescent::Nothing
    }
}

impl TreeNode for Node {
    ghost words = { TREEWORDS };

    ghost at = { node_at };

    ghost size = { size };

    ghost Fair = { Fair };

    ghost join_of = { join_of };

    ghost additive = { additive };

    fn load(nodes: &[u32], i: usize) -> Node {
        let k = 4 * i;
        Node {
            ect: nodes[k],
            sum_of_processing_times: nodes[k + 1],
            ect_bar: nodes[k + 2],
            sum_of_processing_times_bar: nodes[k + 3],
        }
    }

    fn store(nodes: &mut [u32], i: usize, n: Node) {
        let k = 4 * i;
        nodes[k] = n.ect;
        nodes[k + 1] = n.sum_of_processing_times;
        nodes[k + 2] = n.ect_bar;
        nodes[k + 3] = n.sum_of_processing_times_bar;
    }

    #[tactic(auto, unfolding(crate::specs::Nodes::join_of))]
    fn join(l: Node, r: Node) -> Node {
        let sum = l.sum_of_processing_times + r.sum_of_processing_times;
        let ect_left = l.ect + r.sum_of_processing_times;
        let sum_left_lambda = l.sum_of_processing_times_bar + r.sum_of_processing_times;
        let sum_right_lambda = l.sum_of_processing_times + r.sum_of_processing_times_bar;
        let ect_right_lambda = l.ect + r.sum_of_processing_times_bar;
        let ect_left_lambda = l.ect_bar + r.sum_of_processing_times;
        let ect = r.ect.max(ect_left);
        let sum_bar = sum_left_lambda.max(sum_right_lambda);
        let ect_lambda = ect_right_lambda.max(ect_left_lambda);
        let ect_bar = r.ect_bar.max(ect_lambda);
        Node {
            ect,
            sum_of_processing_times: sum,
            ect_bar,
            sum_of_processing_times_bar: sum_bar,
        }
    }
}

impl Around {
    // One step of the search by ects.
    pub fn step_ect_bar(self) -> EctBarDescent
        requires { AroundFits self }
        ensures { result ≡ step_at_ect self }
    {
        match self {
            Around::Leaf(node) => {
                if node.is_gray() {
                    return EctBarDescent::Here;
                }
                EctBarDescent::Nothing
            }
            Around::Inner(node, l, r) => Node::descent_ect_bar(node, l, r),
        }
    }

    // One step of the search by sums.
    pub fn step_p(self) -> PDescent
        requires { AroundFits self }
        ensures { result ≡ step_at_p self }
    {
        match self {
            Around::Leaf(node) => {
                if node.is_gray() {
                    return PDescent::Here;
                }
                PDescent::Nothing
            }
            Around::Inner(node, l, r) => Node::descent_p(node, l, r),
        }
    }
}
