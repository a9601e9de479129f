// The nodes of the theta tree: the values of a node, and those of a parent from its children.
ghost use Rattle.std.specs.Prelude.{◌≡◌};
ghost use Rattle.integers.specs.Limits.{THETAWORDS};
ghost use Rattle.trees.specs.Nodes.{plain_empty_of, plain_of, plain_join_of};
ghost use Rattle.trees.specs.NodeBounds.{PlainFair, plain_size};
ghost use Rattle.trees.specs.NodeLaws.{plain_additive};
ghost use Rattle.trees.specs.Words.{plain_at};

use crate::array_tree::TreeNode;

// A node which keeps track of the ect and the sum of processing times of the tasks below it.
#[derive(Clone, Copy)]
pub struct Node {
    pub ect: u32,
    pub sum_of_processing_times: u32,
}

impl Node {
    // Constructs an empty node.
    pub fn empty() -> Node
        ensures { result ≡ plain_empty_of }
    {
        Node {
            ect: 0,
            sum_of_processing_times: 0,
        }
    }

    // Constructs a new node with the provided value.
    pub fn new(ect: u32, sum_of_processing_times: u32) -> Node
        ensures { result ≡ plain_of ect sum_of_processing_times }
    {
        Node {
            ect,
            sum_of_processing_times,
        }
    }
}

impl TreeNode for Node {
    ghost words = { THETAWORDS };

    ghost at = { plain_at };

    ghost size = { plain_size };

    ghost Fair = { PlainFair };

    ghost join_of = { plain_join_of };

    ghost additive = { plain_additive };

    fn load(nodes: &[u32], i: usize) -> Node {
        let k = 2 * i;
        Node {
            ect: nodes[k],
            sum_of_processing_times: nodes[k + 1],
        }
    }

    fn store(nodes: &mut [u32], i: usize, n: Node) {
        let k = 2 * i;
        nodes[k] = n.ect;
        nodes[k + 1] = n.sum_of_processing_times;
    }

    #[tactic(auto, unfolding(crate::specs::Nodes::plain_join_of))]
    fn join(l: Node, r: Node) -> Node {
        let sum = l.sum_of_processing_times + r.sum_of_processing_times;
        let ect_left = l.ect + r.sum_of_processing_times;
        let ect = r.ect.max(ect_left);
        Node {
            ect,
            sum_of_processing_times: sum,
        }
    }
}
