// Casts of numbers whose range a contract shows.
ghost use Rattle.std.specs.Prelude.{◌≡◌, pos, ◌≤ℤ◌, ◌<◌};
ghost use Rattle.integers.specs.Moments.{zero_at};

// A whole number that is not negative, as a duration is.
pub fn nat_of(x: i32) -> u32
    requires { pos 0 ≤ℤ x }
    ensures { pos result ≡ x }
{
    x as u32
}

// A count or a task's number as a word.
pub fn word_of(n: usize) -> i32
    requires { n < zero_at }
    ensures { result ≡ pos n }
{
    n as i32
}
