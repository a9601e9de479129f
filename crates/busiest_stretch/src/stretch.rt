// The stretch of a given length that tasks cover most. Covered time stops rising only where a task starts with the stretch or ends with it. So the least
// start that reaches the most is a task's start, or the stretch from it ends with a task.
ghost use Rattle.fixed_schedules.specs.Neighbours.{Tested};
ghost use Rattle.busiest_stretch.specs.Stretches.{stretch_number, BusiestAnswered};
ghost use Rattle.busiest_stretch.specs.StretchMoments.{tasks_at, EndsStart, StretchHeld, Tried, BusiestMoment};

use crate::answer::Stretch;
use crate::covering::Slide;
use fixed_schedules::parameters::length_fits;
use fixed_schedules::refusals::fixed_order;
use integers::limits::TASKS;
use integers::moments::{moments_of, start_of};
use integers::numbers::nat_of;
use integers::refused::Refusal;
use records::record::DisjunctivePropagator;

// A stretch by the moment of its start, and the time of it that tasks cover.
#[derive(Clone, Copy)]
struct Best {
    covered: u32,
    start: u32,
}

// The tasks by start, or why a call is refused: for its schedule, and then for its length.
fn stretch_order(
    record: &DisjunctivePropagator,
    earliest: &[i32],
    latest: &[i32],
    w: i32,
) -> Result<[usize; TASKS], Refusal>
    ensures { Tested earliest.now (stretch_number «record».now earliest.now latest.now w) result }
{
    let order = fixed_order(record, earliest, latest)?;
    if !length_fits(w) {
        return Err(Refusal::Length);
    }
    Ok(order)
}

impl Slide<'_> {
    // The better of the best stretch so far and the one from x on, where x counts as a start. Better covers more, or as much from an earlier start.
    fn better(&self, best: Best, x: u32) -> Best
        requires { StretchHeld (tasks_at self.now.starts.now self.now.durations.now) self.now.length self.now.first self.now.last
            best.covered best.start }
        ensures { Tried (tasks_at self.now.starts.now self.now.durations.now) self.now.length self.now.first self.now.last x
            best.covered best.start result.covered result.start }
    {
        if x < self.first || self.last < x {
            return best;
        }
        let covered = self.covered(x);
        if covered < best.covered || covered == best.covered && best.start <= x {
            return best;
        }
        Best { covered, start: x }
    }

    // The best of the stretches that start with a task or end with one.
    fn busiest(&self) -> Best
        requires { EndsStart self.now.starts.now self.now.first self.now.last }
        ensures { BusiestMoment (tasks_at self.now.starts.now self.now.durations.now) self.now.length self.now.first self.now.last
            result.covered result.start }
    {
        let mut best = Best {
            covered: self.covered(self.first),
            start: self.first,
        };
        for (start, duration) in self.starts.iter().zip(self.durations) {
            best = self.better(best, *start);
            let back = *start + *duration - self.length;
            best = self.better(best, back);
        }
        best
    }
}

// The greatest time that tasks cover of a stretch of length w, and the least start that reaches it; or why the call is refused.
pub fn busiest_stretch(
    record: DisjunctivePropagator,
    earliest: &[i32],
    latest: &[i32],
    w: i32,
) -> Result<Stretch, Refusal>
    ensures { BusiestAnswered «record» earliest.now latest.now w result }
{
    let order = stretch_order(&record, earliest, latest, w)?;
    let n = record.count;
    let by_start = &order[..n];
    let mut starts = [0u32; TASKS];
    moments_of(&mut starts, earliest);
    let slide = Slide {
        starts: &starts[..n],
        durations: &record.durations[..n],
        length: nat_of(w),
        first: starts[by_start[0]],
        last: starts[by_start[n - 1]],
    };
    let best = slide.busiest();
    Ok(Stretch {
        covered: best.covered,
        start: start_of(best.start),
    })
}
