// The tasks of a schedule by start, and the test that no two of them overlap.
ghost use Rattle.std.specs.Prelude.{◌≡◌, ◌-◌, ◌≤◌, length, take};
ghost use Rattle.integers.specs.Tests.{all_below};
ghost use Rattle.fixed_schedules.specs.FixedSchedules.{one_start_at, order_of};
ghost use Rattle.fixed_schedules.specs.Neighbours.{Sortable, Traversable, neighbours_are_apart};

use integers::limits::TASKS;
use integers::moments::{moment_of, moments_of};
use sorts::sort_numbers;

// Whether every range holds one start: no earliest start is above its latest, nor the latest above the earliest.
pub fn one_start(earliest: &[i32], latest: &[i32]) -> bool
    requires { length earliest.now ≡ length latest.now }
    ensures { result ≡ all_below (one_start_at earliest.now latest.now) (length earliest.now) }
{
    earliest == latest
}

// The tasks by start, least first, in the first places.
pub fn tasks_by_start(earliest: &[i32]) -> [usize; TASKS]
    requires { Sortable earliest.now }
    ensures { take (length earliest.now) result ≡ order_of earliest.now }
{
    let n = earliest.len();
    let mut key = [0u32; TASKS];
    moments_of(&mut key, earliest);
    let mut order: [usize; TASKS] = [0; TASKS];
    sort_numbers(&mut order, n, &key);
    order
}

// Whether each task of an order ends by the start of the next. The first places, one for each task, hold the order. Those after them do not count, so
// that a caller may lend the whole array.
pub fn neighbours_apart(order: &[usize], earliest: &[i32], durations: &[u32; TASKS]) -> bool
    requires { (length earliest.now ≤ length order.now)
        × Traversable (take (length earliest.now) order.now) earliest.now durations.now }
    ensures { result ≡ all_below (neighbours_are_apart order.now earliest.now durations.now)
        (length earliest.now - 1) }
{
    for neighbours in order[..earliest.len()].windows(2) {
        let task = neighbours[0];
        let next = neighbours[1];
        let end = moment_of(earliest[task]) + durations[task];
        if end > moment_of(earliest[next]) {
            return false;
        }
    }
    true
}
