// The reason of one task's bound, as atoms in the caller's words.
ghost use Rattle.std.specs.Prelude.{◌≡◌, true, ◌+◌, ◌*◌, ◌<◌, ◌≤◌, length};
ghost use Rattle.integers.specs.Limits.{TASKS};
ghost use Rattle.integers.specs.Refused.{number_in};
ghost use Rattle.integers.specs.Moments.{instant, zero_at};
ghost use Rattle.post_words.specs.StoredAtoms.{Stored};
ghost use Rattle.scheduling.specs.Scheduling.{natural, Tasks};
ghost use Rattle.precedences.specs.PredecessorArrays.{start_at, HoldsRanges};
ghost use Rattle.precedences.specs.ReasonArrays.{member_at, ReasonLeft};
ghost use Rattle.precedences.specs.Reasons.{both_of, both_bounds, reason_number, ReasonGiven};

use crate::bounds::bound_refusal;
use crate::predecessors::{bound_of, predecessors};
use crate::range_moments::{RangeMoments, range_moments};
use integers::limits::TASKS;
use integers::refused::Refusal;
use post_words::{AtomKind, write_reason_atom};
use records::record::DisjunctivePropagator;
use trees::ect::exceeds;

// Both bounds of task j, where it is a member, from the k-th atom on. The number of the atom after them.
fn write_both(atoms: &mut [i32], k: usize, j: usize, member: bool, est: u32, lst: u32) -> usize
    requires { (member ≡ true → 3 * k + 6 ≤ length atoms.old) × (j < TASKS) }
    ensures { Stored atoms.old atoms.new k result (both_of member j (instant zero_at est) (instant zero_at lst)) }
{
    if !member {
        return k;
    }
    write_reason_atom(atoms, k, j, AtomKind::AtLeast, est);
    write_reason_atom(atoms, k + 1, j, AtomKind::AtMost, lst);
    k + 2
}

// Both bounds of the members, by number, from the second atom on. The number of the atom after them.
fn write_members(atoms: &mut [i32], members: &[bool; TASKS], m: &RangeMoments) -> usize
    requires { (m.now.count ≤ TASKS)
        × (3 * (1 + length (both_bounds (start_at m.now.est) (start_at m.now.lst) (member_at members.now) m.now.count)) ≤ length atoms.old) }
    ensures { Stored atoms.old atoms.new 1 result
        (both_bounds (start_at m.now.est) (start_at m.now.lst) (member_at members.now) m.now.count) }
{
    let mut k = 1;
    for j in 0..m.count {
        k = write_both(atoms, k, j, members[j], m.est[j], m.lst[j]);
    }
    k
}

// The reason of task i's bound, where that is above its earliest start, and its atom count; else 0.
fn write_reason(atoms: &mut [i32], m: &RangeMoments, i: usize) -> usize
    requires { (J : Tasks natural) × HoldsRanges J m.now × (i < m.now.count) × (6 * m.now.count ≤ length atoms.old) }
    ensures { (J : Tasks natural) → HoldsRanges J m.now → ReasonLeft J i atoms.old result atoms.new }
{
    let start = m.est[i];
    if !exceeds(bound_of(m, i), start) {
        return 0;
    }
    write_reason_atom(atoms, 0, i, AtomKind::AtLeast, start);
    let before = predecessors(m, i);
    write_members(atoms, &before, m)
}

// Why the call is refused: as the bound's call, and then for the words, which are to have room for the longest reason.
#[tactic(auto, unfolding(integers::specs::Tests::refusal))]
fn reason_refusal(
    record: &DisjunctivePropagator,
    earliest: &[i32],
    latest: &[i32],
    bars_fit: bool,
    task: usize,
    words: usize,
) -> Result<(), Refusal>
    ensures { number_in result ≡ reason_number «record».now earliest.now latest.now bars_fit task words }
{
    bound_refusal(record, earliest, latest, bars_fit, task)?;
    if words < 6 * record.count {
        return Err(Refusal::ReasonRoom);
    }
    Ok(())
}

// Writes the reason of the task's bound over these ranges, and answers how many atoms it has. `bars_fit` says whether the ranges' bars fit.
pub fn precedence_reason(
    record: DisjunctivePropagator,
    earliest: &[i32],
    latest: &[i32],
    bars_fit: bool,
    task: usize,
    atoms: &mut [i32],
) -> Result<usize, Refusal>
    ensures { ReasonGiven «record» earliest.now latest.now bars_fit task atoms.old result atoms.new }
{
    reason_refusal(&record, earliest, latest, bars_fit, task, atoms.len())?;
    let m = range_moments(&record, earliest, latest);
    Ok(write_reason(atoms, &m, task))
}
