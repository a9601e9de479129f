// Why a call is refused, and the number of each reason; specs/Refused.antt has the same numbers.
ghost use Rattle.std.specs.Prelude.{◌≡◌};
ghost use Rattle.integers.specs.Refused.{number_of};

// What is unfit. A call that is refused for several reasons names the first in the order of its tests.
#[derive(Clone, Copy, Debug, PartialEq, Eq)]
pub enum Refusal {
    // No tasks, or more than TASKS.
    TaskCount,
    // A duration below 1.
    Duration,
    // A start beyond ±START.
    Start,
    // An earliest start above the latest.
    Crossed,
    // Durations that sum to more than DURATIONS.
    DurationSum,
    // Words that are no multiple of three, more than one consequent, an unknown kind or variable, or a value beyond ±VALUE.
    Atoms,
    // More premises than PREMISES.
    Premises,
    // A consequent whose variable is no task's, or lacks a finite bound.
    Consequent,
    // Too few words for posts or atoms.
    Room,
    // A count of ranges that is not that of the tasks.
    RangeCount,
    // A post that is not there.
    Post,
    // A task to remove that is not there.
    Removed,
    // Barred starts: more than BARS, not strictly ascending, or a range's own earliest or latest start among them.
    Bars,
    // A schedule that is not fixed, or overlaps.
    Schedule,
    // Too few bytes for a page.
    PageRoom,
    // Too few words for a reason.
    ReasonRoom,
    // A task that is not there.
    Task,
    // A moment beyond ±MOMENT, or a duration below 1 or above LENGTH.
    Question,
    // A due moment beyond ±DUE, or a count of due moments that is not that of the tasks.
    Due,
    // A record that no call makes.
    Record,
    // More holes than HOLES in one domain.
    Holes,
    // A variable state that no call makes.
    State,
    // The length of a stretch, below 1 or above LENGTH.
    Length,
}

impl Refusal {
    // The number in the table, which callers from C are answered.
    pub fn number(self) -> u32
        ensures { result ≡ number_of self }
    {
        match self {
            Refusal::TaskCount => 1,
            Refusal::Duration => 2,
            Refusal::Start => 3,
            Refusal::Crossed => 4,
            Refusal::DurationSum => 5,
            Refusal::Atoms => 6,
            Refusal::Premises => 7,
            Refusal::Consequent => 8,
            Refusal::Room => 9,
            Refusal::RangeCount => 10,
            Refusal::Post => 11,
            Refusal::Removed => 12,
            Refusal::Bars => 13,
            Refusal::Schedule => 14,
            Refusal::PageRoom => 15,
            Refusal::ReasonRoom => 16,
            Refusal::Task => 17,
            Refusal::Question => 18,
            Refusal::Due => 19,
            Refusal::Record => 20,
            Refusal::Holes => 21,
            Refusal::State => 22,
            Refusal::Length => 23,
        }
    }
}
