// The ranges and the durations of a record's tasks, in moments.
ghost use Rattle.records.specs.Records.{moments_in};
ghost use Rattle.records.specs.Refusals.{AcceptedInput};
ghost use Rattle.precedences.specs.PredecessorArrays.{HoldsRanges};

use integers::limits::TASKS;
use integers::moments::moments_of;
use records::record::DisjunctivePropagator;

// Each task's earliest start, latest start and duration, in arrays of TASKS places, since nothing allocates, and an array each, as `theta_ect` takes them. That
// they are those of tasks stands in the contracts and not in a ghost field: `theta_ect` asks for the tasks themselves, and what is answered is said of them.
// The `TaskMoments` of the overload test has latest completions in place of latest starts. One struct with both would fill an array that nothing here reads.
#[derive(Clone, Copy)]
pub struct RangeMoments {
    pub count: usize,
    pub est: [u32; TASKS],
    pub lst: [u32; TASKS],
    pub durations: [u32; TASKS],
}

// The tasks of a record and ranges that nothing refuses.
pub fn range_moments(
    record: &DisjunctivePropagator,
    earliest: &[i32],
    latest: &[i32],
) -> RangeMoments
    requires { AcceptedInput «record».now earliest.now latest.now }
    ensures { HoldsRanges (moments_in «record».now earliest.now latest.now) result }
{
    let mut est: [u32; TASKS] = [0; TASKS];
    moments_of(&mut est, earliest);
    let mut lst: [u32; TASKS] = [0; TASKS];
    moments_of(&mut lst, latest);
    RangeMoments {
        count: record.count,
        est,
        lst,
        durations: record.durations,
    }
}
