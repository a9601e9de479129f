// The theta tree and the theta-lambda tree, complete binary trees over the tasks by earliest start; their nodes, and the ect as an answer.
#![tactic(auto)]

pub mod array_tree;
pub mod complete_tree;
pub mod disjunctive_task;
pub mod ect;
pub mod theta_lambda_node;
pub mod theta_lambda_tree;
pub mod theta_node;
pub mod theta_tree;
