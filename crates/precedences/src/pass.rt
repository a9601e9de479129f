// The pass: every bound is taken from the ranges at entry; where none passes a latest start, the earliest starts are raised.
ghost use Rattle.std.specs.Prelude.{◌≡◌, ◌≤◌, length};
ghost use Rattle.integers.specs.FilledLists.{filled, no_tasks};
ghost use Rattle.integers.specs.Limits.{TASKS};
ghost use Rattle.scheduling.specs.Scheduling.{natural, Tasks};
ghost use Rattle.precedences.specs.PredecessorArrays.{start_at, HoldsRanges};
ghost use Rattle.precedences.specs.PassArrays.{raised_there, FirstPast};
ghost use Rattle.precedences.specs.Precedences.{RanPrecedences};

use crate::answers::Precedences;
use crate::predecessors::bound_of;
use crate::range_moments::{RangeMoments, range_moments};
use integers::limits::TASKS;
use integers::moments::start_of;
use records::record::DisjunctivePropagator;
use records::refusals::input_refusal;
use trees::ect::raised;

// Each task's earliest start or bound, whichever is later.
fn raised_starts(m: &RangeMoments) -> [u32; TASKS]
    requires { (J : Tasks natural) × HoldsRanges J m.now }
    ensures { (J : Tasks natural) → HoldsRanges J m.now → result ≡ filled (raised_there J) m.now.count no_tasks }
{
    let mut starts = [0u32; TASKS];
    for i in 0..m.count {
        starts[i] = raised(bound_of(m, i), m.est[i]);
    }
    starts
}

// The first task whose raised start is past its latest start.
fn first_past(starts: &[u32; TASKS], m: &RangeMoments) -> Option<usize>
    requires { m.now.count ≤ TASKS }
    ensures { FirstPast starts.now m.now.lst m.now.count result }
{
    for i in 0..m.count {
        if m.lst[i] < starts[i] {
            return Some(i);
        }
    }
    None
}

// Stores the raised starts in the caller's slice.
fn store(earliest: &mut [i32], starts: &[u32; TASKS])
    requires { length earliest.old ≤ TASKS }
    ensures { earliest.new ≡ filled (start_at starts.now) (length earliest.old) earliest.old }
{
    for (k, start) in earliest.iter_mut().enumerate() {
        *start = start_of(starts[k]);
    }
}

// Raises each earliest start to the ect of the tasks that must come before its task, where that is later. `bars_fit` says whether the ranges' bars fit.
pub fn precedences(
    record: DisjunctivePropagator,
    earliest: &mut [i32],
    latest: &[i32],
    bars_fit: bool,
) -> Precedences
    ensures { RanPrecedences «record» earliest.old latest.now bars_fit result earliest.new }
{
    if let Err(why) = input_refusal(&record, earliest, latest, bars_fit) {
        return Precedences::Refused(why);
    }
    let m = range_moments(&record, earliest, latest);
    let starts = raised_starts(&m);
    if let Some(i) = first_past(&starts, &m) {
        return Precedences::Emptied(i);
    }
    store(earliest, &starts);
    Precedences::Done
}
