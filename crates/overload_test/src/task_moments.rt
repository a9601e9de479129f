// The tasks of a record and its ranges in moments.
ghost use Rattle.records.specs.Records.{moments_in};
ghost use Rattle.records.specs.Refusals.{AcceptedInput};
ghost use Rattle.overload_test.specs.ReadArrays.{HoldsTasks};

use integers::limits::TASKS;
use integers::moments::{completions, moments_of};
use records::record::DisjunctivePropagator;

// Each task's earliest start, latest completion and duration, in arrays of TASKS places, since nothing allocates, and an array each, as the sorts and `theta_ect`
// take them. That they are those of tasks stands in the contracts and not in a ghost field, since what is answered is said of the tasks themselves.
#[derive(Clone, Copy)]
pub struct TaskMoments {
    pub count: usize,
    pub est: [u32; TASKS],
    pub lct: [u32; TASKS],
    pub durations: [u32; TASKS],
}

// The tasks of a record and ranges that nothing refuses.
pub fn task_moments(record: &DisjunctivePropagator, earliest: &[i32], latest: &[i32]) -> TaskMoments
    requires { AcceptedInput «record».now earliest.now latest.now }
    ensures { HoldsTasks (moments_in «record».now earliest.now latest.now) result }
{
    let mut est: [u32; TASKS] = [0; TASKS];
    moments_of(&mut est, earliest);
    let mut lst: [u32; TASKS] = [0; TASKS];
    moments_of(&mut lst, latest);
    let mut lct: [u32; TASKS] = [0; TASKS];
    completions(&mut lct, &lst, &record.durations, record.count);
    TaskMoments {
        count: record.count,
        est,
        lct,
        durations: record.durations,
    }
}
