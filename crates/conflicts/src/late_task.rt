// A task whose bound passes its latest start, where no set overloads: the last post of a run that is emptied.
ghost use Rattle.std.specs.Prelude.{◌≡◌, ◌≤◌, pos, length, get_or, take};
ghost use Rattle.integers.specs.Limits.{TASKS};
ghost use Rattle.records.specs.Refusals.{AcceptedInput};
ghost use Rattle.propagator.specs.Ran.{trace_of};
ghost use Rattle.runs.specs.ReasonSets.{named};
ghost use Rattle.conflicts.specs.Answers.{flags_of};
ghost use Rattle.conflicts.specs.ConflictOf.{late_in, late_by};
ghost use Rattle.conflicts.specs.HeldTasks.{HoldsSet, Lates, NamesTasks, LastPosted};

use crate::answer::{Conflict, Found, no_conflict};
use crate::spans::{span_of, work_of};
use crate::suffixes::suffix_to;
use integers::limits::{ATOMWORDS, POSTWORDS, TASKS};
use integers::moments::{moment_of, start_of};
use integers::numbers::nat_of;
use overload_test::task_moments::{TaskMoments, task_moments};
use post_words::{atoms_in, post_reason, read_post};
use propagator::disjunctive_propagator::run_accepted;
use records::record::DisjunctivePropagator;
use runs::outcome::Outcome;

// The variables of a reason.
fn named_by(reason: &[i32]) -> [bool; TASKS]
    requires { NamesTasks reason.now }
    ensures { (h : NamesTasks reason.now) → result ≡ flags_of TASKS (named h.atoms) }
{
    let mut named = [false; TASKS];
    for k in 0..atoms_in(reason) {
        let variable = nat_of(reason[3 * k]) as usize;
        named[variable] = true;
    }
    named
}

// The task's conflict: `named` is the task with those that it comes after.
fn late(
    m: &TaskMoments,
    task: usize,
    latest_start: i32,
    bound: i32,
    named: [bool; TASKS],
) -> Conflict
    requires { (h : HoldsSet m.now named) × Lates h.J h.Ω task }
    ensures { (h : HoldsSet m.now named) → result ≡ late_in h.J task latest_start bound h.Ω }
{
    let mut others = named;
    others[task] = false;
    let before = suffix_to(m, others, moment_of(bound));
    let all = span_of(m, &named);
    let end = span_of(m, &others).lct;
    Conflict {
        found: Found::Late {
            task,
            latest_start,
            bound,
        },
        set: work_of(named, all),
        lct: start_of(end),
        excess: all.past(end),
        before: work_of(before, span_of(m, &before)),
    }
}

// The task of the last post.
fn last_posted(
    m: &TaskMoments,
    latest: &[i32],
    posts: &[i32],
    atoms: &[i32],
    count: usize,
) -> Conflict
    requires { LastPosted m.now latest.now posts.now atoms.now count }
    ensures { (h : LastPosted m.now latest.now posts.now atoms.now count)
        → result ≡ late_in h.J h.last.task (get_or latest.now h.last.task (pos 0)) h.last.bound (named h.last.reason) }
{
    let last = count - 1;
    let post = read_post(posts, last);
    let task = nat_of(post.task) as usize;
    let named = named_by(post_reason(posts, atoms, count, last));
    late(m, task, latest[task], post.bound, named)
}

// The earliest starts, for a run to raise.
fn starts_of(earliest: &[i32]) -> [i32; TASKS]
    requires { length earliest.now ≤ TASKS }
    ensures { take (length earliest.now) result ≡ earliest.now }
{
    let mut starts = [0i32; TASKS];
    starts[..earliest.len()].copy_from_slice(earliest);
    starts
}

// The late task of a record and ranges that nothing refuses and where no set overloads.
pub fn late_task(record: DisjunctivePropagator, earliest: &[i32], latest: &[i32]) -> Conflict
    requires { AcceptedInput «record» earliest.now latest.now }
    ensures { result ≡ late_by «record» earliest.now latest.now
        (trace_of «record» earliest.now latest.now).end }
{
    let mut starts = starts_of(earliest);
    let mut posts = [0i32; POSTWORDS];
    let mut atoms = [0i32; ATOMWORDS];
    let finished = run_accepted(
        &record,
        &mut starts[..record.count],
        latest,
        &mut posts,
        &mut atoms,
    );
    let Outcome::Emptied(count) = finished.outcome else {
        return no_conflict(Found::NothingFound);
    };
    let m = task_moments(&record, earliest, latest);
    last_posted(&m, latest, &posts, &atoms, count)
}
