// The reasons of posts and overloads, as words in the lent slices. Starts and bounds are moments.
ghost use Rattle.std.specs.Prelude.{◌≤◌, length};
ghost use Rattle.integers.specs.Moments.{zero_at};
ghost use Rattle.runs.specs.Runs.{conflict, bounds, propagation};
ghost use Rattle.explanations.specs.Walks.{Attains, Walk};
ghost use Rattle.explanations.specs.Leaves.{tasks_between, tasks_of};
ghost use Rattle.explanations.specs.WrittenAtoms.{starting, Writable};
ghost use Rattle.post_words.specs.StoredAtoms.{Stored};
ghost use Rattle.explanations.specs.Explanations.{ConflictExplainable, PropagationExplainable};

use crate::theta::Theta;
use crate::walks::{Suffix, walk, write_within};
use post_words::{AtomKind, write_reason_atom};
use trees::disjunctive_task::LeafPlace;

// Creates an explanation consisting of the tasks of Θ which were responsible for the conflict, based on [1] and [2].
//
// Bibliography
// - [1] P. Vilím, ‘Computing explanations for the unary resource constraint’, in International Conference on Integration of Artificial Intelligence (AI)
//   and Operations Research (OR) Techniques in Constraint Programming, 2005, pp. 396–409.
// - [2] R. A. Vasile, ‘Evaluating the Impact of Explanations on the Performance of an Edge-Finding Propagator’.
//
// It is written from the k-th atom on, and the number of the atom after it is the answer. Both sides share the time by which ω passes lct, less one.
pub fn create_conflict_explanation(
    atoms: &mut [i32],
    k: usize,
    theta: Theta,
    p_theta: u32,
    lct: u32,
) -> usize
    requires { ConflictExplainable (length atoms.old) k (tasks_of theta) theta.est.now theta.durations.now p_theta lct }
    ensures { Stored atoms.old atoms.new k result
        (conflict zero_at (starting theta.entry.est.now theta.entry.durations.now) lct p_theta (tasks_of theta.entry)) }
{
    let all = Suffix {
        first: LeafPlace(0),
        lasts: p_theta,
    };
    let omega = walk(theta, all, |est, lasts| est + lasts > lct);
    let est_omega = theta.est[theta.task(omega.first)];
    let delta = est_omega + omega.lasts - (lct + 1);
    let offset_left = delta / 2;
    let offset_right = delta - offset_left;
    let low = est_omega - offset_left;
    let high = lct + offset_right;
    write_within(atoms, k, theta, omega.first, theta.n, low, high)
}

// Creates an explanation consisting of the tasks of Θ which were responsible for the propagation of `propagated_task`, based on [1] and [2].
//
// Bibliography
// - [1] P. Vilím, ‘Computing explanations for the unary resource constraint’, in International Conference on Integration of Artificial Intelligence (AI)
//   and Operations Research (OR) Techniques in Constraint Programming, 2005, pp. 396–409.
// - [2] R. A. Vasile, ‘Evaluating the Impact of Explanations on the Performance of an Edge-Finding Propagator’.
//
// It is written from the k-th atom on, and the number of the atom after it is the answer.
pub fn create_propagation_explanation(
    atoms: &mut [i32],
    k: usize,
    theta: Theta,
    p_theta: u32,
    lct_j: u32,
    propagated_task: usize,
    new_bound: u32,
) -> usize
    requires { PropagationExplainable (length atoms.old) k (tasks_of theta) theta.est.now theta.durations.now p_theta lct_j propagated_task new_bound }
    ensures { Stored atoms.old atoms.new k result
        (propagation zero_at (starting theta.entry.est.now theta.entry.durations.now) propagated_task new_bound lct_j p_theta (tasks_of theta.entry)) }
{
    let est_propagated = theta.est[propagated_task];
    let p_propagated = theta.durations[propagated_task];
    let all = Suffix {
        first: LeafPlace(0),
        lasts: p_theta,
    };
    let omega = walk(
        theta,
        all,
        |est, lasts| est_propagated.min(est) + lasts + p_propagated > lct_j,
    );
    let r = est_propagated.min(theta.est[theta.task(omega.first)]);
    let last = r + omega.lasts + p_propagated - 1;
    let at = write_bounds(atoms, k, theta, omega, new_bound, r, last);
    write_reason_atom(atoms, at, propagated_task, AtomKind::AtLeast, r);
    at + 1
}

// The atoms of ω, from the k-th atom on. Each task ends by `last`; it starts at the est of ω' or later where it is in ω', else at r
// or later. The number of the atom after them.
fn write_bounds(
    atoms: &mut [i32],
    k: usize,
    theta: Theta,
    omega: Suffix,
    new_bound: u32,
    r: u32,
    last: u32,
) -> usize
    requires { Walk (Attains theta.est.now new_bound) (tasks_between theta omega.first.0 theta.n) theta.est.now theta.durations.now omega.lasts 0
        × Writable (length atoms.old) k (tasks_between theta omega.first.0 theta.n) theta.durations.now last × (omega.first.0 ≤ theta.n) }
    ensures { Stored atoms.old atoms.new k result
        (bounds zero_at (starting theta.entry.est.now theta.entry.durations.now) new_bound r last omega.lasts
        (tasks_between theta.entry omega.first.0 theta.entry.n)) }
{
    let omega_prime = walk(theta, omega, |est, lasts| est + lasts == new_bound);
    let est_omega_prime = new_bound - omega_prime.lasts;
    let at = write_within(atoms, k, theta, omega.first, omega_prime.first.0, r, last);
    write_within(
        atoms,
        at,
        theta,
        omega_prime.first,
        theta.n,
        est_omega_prime,
        last,
    )
}
