// What a call on a fixed schedule takes besides it: a moment, or a length of time.
ghost use Rattle.std.specs.Prelude.{◌≡◌};
ghost use Rattle.fixed_schedules.specs.Parameters.{moment_within, length_within};

use integers::limits::{LENGTH, MOMENT};

// Whether a moment is within the limits.
pub fn moment_fits(t: i32) -> bool
    ensures { result ≡ moment_within t }
{
    (-MOMENT..=MOMENT).contains(&t)
}

// Whether a length of time is.
pub fn length_fits(d: i32) -> bool
    ensures { result ≡ length_within d }
{
    (1..=LENGTH).contains(&d)
}
