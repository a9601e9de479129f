// Moments: a whole number of 32 bits as the u32 that is 2^31 more, so that sums and comparisons are of natural numbers.
ghost use Rattle.std.specs.Prelude.{◌≡◌, ℕ, ◌≤◌, ◌<◌, length};
ghost use Rattle.integers.specs.Limits.{TASKS, U32MAX};
ghost use Rattle.integers.specs.FilledLists.{filled};
ghost use Rattle.integers.specs.Moments.{moment, instant, zero_at, moment_at, completion_at};

use crate::limits::{TASKS, ZERO_AT};

// The moment of a whole number.
pub fn moment_of(x: i32) -> u32
    ensures { result ≡ moment zero_at x }
{
    ((x as i64) + ZERO_AT) as u32
}

// The whole number at a moment.
pub fn start_of(m: u32) -> i32
    ensures { result ≡ instant zero_at m }
{
    ((m as i64) - ZERO_AT) as i32
}

// The moments of the starts, in the first places.
pub fn moments_of(out: &mut [u32; TASKS], xs: &[i32])
    requires { length xs.now ≤ TASKS }
    ensures { out.new ≡ filled (moment_at xs.now) (length xs.now) out.old }
{
    for (i, x) in xs.iter().enumerate() {
        out[i] = moment_of(*x);
    }
}

// The latest completions: latest start plus duration.
pub fn completions(
    out: &mut [u32; TASKS],
    latest: &[u32; TASKS],
    durations: &[u32; TASKS],
    n: usize,
)
    requires { (n ≤ TASKS) × ((k : ℕ) → k < n → completion_at latest.now durations.now k ≤ U32MAX) }
    ensures { out.new ≡ filled (completion_at latest.now durations.now) n out.old }
{
    for i in 0..n {
        out[i] = latest[i] + durations[i];
    }
}
