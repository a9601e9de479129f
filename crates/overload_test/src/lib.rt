// Whether some set of tasks overloads: the tasks go into the theta tree by latest completion, least first, until those read overload.
#![tactic(auto)]

pub mod task_moments;

ghost use Rattle.std.specs.Prelude.{◌≡◌};
ghost use Rattle.records.specs.Records.{moments_in};
ghost use Rattle.records.specs.Refusals.{AcceptedInput};
ghost use Rattle.overload_test.specs.ReadTasks.{answer_of};
ghost use Rattle.overload_test.specs.ReadArrays.{Readable};
ghost use Rattle.overload_test.specs.Tested.{OverloadTested};

use crate::task_moments::{TaskMoments, task_moments};
use integers::limits::{TASKS, THETAWORDS};
use integers::refused::Refusal;
use records::record::DisjunctivePropagator;
use records::refusals::input_refusal;
use sorts::{sort_numbers, sort_with_ranks};
use trees::disjunctive_task::{DisjunctiveTask, LocalId, leaf_of};
use trees::ect::exceeds;
use trees::theta_tree::ThetaTree;

// Reads the tasks in their order, each into Theta: how many are read when those read overload.
fn read_tasks(
    nodes: &mut [u32; THETAWORDS],
    inner: usize,
    mapping: &[u32; TASKS],
    tasks: &[usize; TASKS],
    m: &TaskMoments,
) -> Option<usize>
    requires { Readable inner nodes.old mapping.now tasks.now m.now }
    ensures { (f : Readable inner nodes.old mapping.now tasks.now m.now) → result ≡ answer_of f.J }
{
    for k in 0..m.count {
        let i = tasks[k];
        let place = leaf_of(mapping, LocalId(i));
        let task = DisjunctiveTask {
            start_time: m.est[i],
            processing_time: m.durations[i],
            id: LocalId(i),
        };
        ThetaTree::add(nodes, inner, place, task);
        if exceeds(ThetaTree::ect(nodes), m.lct[i]) {
            return Some(k + 1);
        }
    }
    None
}

// The test of a record and ranges that nothing refuses.
fn test_accepted(record: &DisjunctivePropagator, earliest: &[i32], latest: &[i32]) -> Option<usize>
    requires { AcceptedInput «record».now earliest.now latest.now }
    ensures { result ≡ answer_of (moments_in «record».now earliest.now latest.now) }
{
    let m = task_moments(record, earliest, latest);
    let mut leaves: [usize; TASKS] = [0; TASKS];
    let mut mapping: [u32; TASKS] = [0; TASKS];
    sort_with_ranks(&mut leaves, &mut mapping, m.count, &m.est);
    let mut tasks: [usize; TASKS] = [0; TASKS];
    sort_numbers(&mut tasks, m.count, &m.lct);
    let tree = ThetaTree::new(m.count);
    let mut nodes = tree.nodes;
    read_tasks(
        &mut nodes,
        tree.number_of_internal_nodes,
        &mapping,
        &tasks,
        &m,
    )
}

// How many tasks are read when those read overload, in the ranges of the record's tasks, whose bars fit if `bars_fit`; or none, where no set overloads.
pub fn overload_test(
    record: DisjunctivePropagator,
    earliest: &[i32],
    latest: &[i32],
    bars_fit: bool,
) -> Result<Option<usize>, Refusal>
    ensures { OverloadTested «record» earliest.now latest.now bars_fit result }
{
    input_refusal(&record, earliest, latest, bars_fit)?;
    Ok(test_accepted(&record, earliest, latest))
}
