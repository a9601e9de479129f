// The walks over Θ. Starts and bounds are moments.
ghost use Rattle.std.specs.Prelude.{◌≡◌, ◌<◌, ◌≤◌, length};
ghost use Rattle.integers.specs.Moments.{zero_at};
ghost use Rattle.integers.specs.Limits.{TASKS};
ghost use Rattle.trees.specs.ArraySearches.{Next, white_in, task_in};
ghost use Rattle.runs.specs.Runs.{within};
ghost use Rattle.explanations.specs.Leaves.{tasks_between, Asks, HaltsAt};
ghost use Rattle.explanations.specs.WrittenAtoms.{lasting, Writable};
ghost use Rattle.post_words.specs.StoredAtoms.{Stored};

use crate::theta::Theta;
use post_words::{AtomKind, write_reason_atom};
use trees::disjunctive_task::{LeafPlace, task_of};
use trees::theta_lambda_tree::ThetaLambdaTree;

impl Theta<'_> {
    // The first leaf from `from` on, below `to`, whose task is in Θ, or `to` where there is none.
    pub(crate) fn next(self, from: LeafPlace, to: usize) -> LeafPlace
        requires { (from.0 ≤ to) × (to ≤ TASKS) }
        ensures { Next (white_in self.entry.nodes.now self.entry.inner) from.0 to result.0 }
    {
        ThetaLambdaTree::next_in_theta(self.nodes, self.inner, from, to)
    }

    // The task of a leaf.
    pub(crate) fn task(self, place: LeafPlace) -> usize
        requires { place.0 < TASKS }
        ensures { result ≡ task_in self.entry.reverse_mapping.now place.0 }
    {
        let id = task_of(self.reverse_mapping, place);
        id.0
    }
}

// The tasks of Θ from one leaf on, and how long they last.
#[derive(Clone, Copy)]
pub struct Suffix {
    pub first: LeafPlace,
    pub lasts: u32,
}

// The tasks of a suffix without the first ones, up to the one at which the walk stops. `stops` says so by the task's earliest start and by how long the tasks
// from it on last. The walk stops somewhere, and no leaf is counted, so it is a loop on that answer.
pub fn walk<F: Fn(u32, u32) -> bool>(theta: Theta, suffix: Suffix, stops: F) -> Suffix
    requires { Asks (F.pre stops) (F.post stops) (tasks_between theta suffix.first.0 theta.n) theta.est.now theta.durations.now suffix.lasts
        × (suffix.first.0 ≤ theta.n) }
    ensures { HaltsAt (F.post stops) theta.entry suffix.first.0 result.first.0 result.lasts }
{
    let mut x = theta.next(suffix.first, theta.n);
    let mut lasts = suffix.lasts;
    while !stops(theta.est[theta.task(x)], lasts) {
        lasts -= theta.durations[theta.task(x)];
        x = theta.next(LeafPlace(x.0 + 1), theta.n);
    }
    Suffix { first: x, lasts }
}

// The atoms of Θ's tasks at the leaves from `from` up to `to`, from the k-th atom on: each starts at `low` or later and ends by `high`.
// The number of the atom after them. The next leaf is looked for in the tree, so the loop counts none.
pub fn write_within(
    atoms: &mut [i32],
    k: usize,
    theta: Theta,
    from: LeafPlace,
    to: usize,
    low: u32,
    high: u32,
) -> usize
    requires { Writable (length atoms.old) k (tasks_between theta from.0 to) theta.durations.now high × (from.0 ≤ to) × (to ≤ TASKS) }
    ensures { Stored atoms.old atoms.new k result
        (within zero_at (lasting theta.entry.durations.now) low high (tasks_between theta.entry from.0 to)) }
{
    let mut x = theta.next(from, to);
    let mut at = k;
    while x.0 < to {
        let t = theta.task(x);
        write_reason_atom(atoms, at, t, AtomKind::AtLeast, low);
        write_reason_atom(
            atoms,
            at + 1,
            t,
            AtomKind::AtMost,
            high - theta.durations[t],
        );
        x = theta.next(LeafPlace(x.0 + 1), to);
        at += 2;
    }
    at
}
