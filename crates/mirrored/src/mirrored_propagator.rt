// The mirrored pass: latest starts fall by the mirrored rule. It is a run in mirrored time, where the caller's moment t is -t, and its words are mirrored back.
ghost use Rattle.std.specs.Prelude.{length};
ghost use Rattle.records.specs.Refusals.{AcceptedRun};
ghost use Rattle.mirrored.specs.RanInMirror.{RanInMirror};
ghost use Rattle.mirrored.specs.RanMirrored.{RanMirrored};

use crate::mirrored_time::{mirror_starts, mirror_words};
use integers::limits::TASKS;
use propagator::disjunctive_propagator::run_accepted;
use records::record::DisjunctivePropagator;
use records::refusals::run_refusal;
use runs::outcome::Outcome;

// A run on the mirrored ranges; the latest starts are what it left of the earliest, mirrored back. Nothing allocates, so the mirrored ranges stand at the front
// of arrays of the largest size.
fn run_in_mirror(
    record: &DisjunctivePropagator,
    earliest: &[i32],
    latest: &mut [i32],
    posts: &mut [i32],
    atoms: &mut [i32],
) -> Outcome
    requires { AcceptedRun «record».now earliest.now latest.old (length posts.old) (length atoms.old) }
    ensures { RanInMirror «record».now earliest.now latest.old posts.old atoms.old result latest.new
        posts.new atoms.new }
{
    let n = record.count;
    let durations = &record.durations;
    let mut from: [i32; TASKS] = [0; TASKS];
    mirror_starts(&mut from[..n], latest, durations);
    let mut to: [i32; TASKS] = [0; TASKS];
    mirror_starts(&mut to[..n], earliest, durations);
    let finished = run_accepted(record, &mut from[..n], &to[..n], posts, atoms);
    mirror_starts(latest, &from[..n], durations);
    finished.outcome
}

// A mirrored pass on the record's durations and the ranges, whose bars fit if `bars_fit`.
pub fn propagate_mirrored(
    record: DisjunctivePropagator,
    earliest: &[i32],
    latest: &mut [i32],
    bars_fit: bool,
    posts: &mut [i32],
    atoms: &mut [i32],
) -> Outcome
    ensures { RanMirrored «record» earliest.now latest.old bars_fit posts.old atoms.old result
        latest.new posts.new atoms.new }
{
    if let Err(why) = run_refusal(
        &record,
        earliest,
        latest,
        bars_fit,
        posts.len(),
        atoms.len(),
    ) {
        return Outcome::Refused(why);
    }
    let outcome = run_in_mirror(&record, earliest, latest, posts, atoms);
    mirror_words(outcome, posts, atoms, &record.durations);
    outcome
}
