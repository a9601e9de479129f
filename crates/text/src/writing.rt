// Text put together in a buffer: each function puts bytes at a place and answers the place after them. The caller shows that there is room, so none of them can
// fail, as a writer of `std::fmt` could.
ghost use Rattle.std.specs.Prelude.{◌+◌, ◌≤◌, length};
ghost use Rattle.text.specs.DecimalText.{natural, decimal, Puts};

// The bytes of a slice. They are copied one by one: a copy of the slice calls `memmove`, and the archive for C asks for `memcpy` and `memset` alone.
pub fn put_bytes(out: &mut [u8], at: usize, bytes: &[u8]) -> usize
    requires { at + length bytes.now ≤ length out.old }
    ensures { Puts out.old out.new at bytes.now result }
{
    for i in 0..bytes.len() {
        out[at + i] = bytes[i];
    }
    at + bytes.len()
}

// The digits of n: those of a tenth of n go first, and then the last one.
fn put_digits(out: &mut [u8], at: usize, n: usize) -> usize
    requires { at + length (natural n) ≤ length out.old }
    ensures { Puts out.old out.new at (natural n) result }
{
    if n < 10 {
        out[at] = b'0' + n as u8;
        return at + 1;
    }
    let last = put_digits(out, at, n / 10);
    out[last] = b'0' + (n % 10) as u8;
    last + 1
}

// A count, or a task's number.
pub fn put_count(out: &mut [u8], at: usize, n: usize) -> usize
    requires { at + 20 ≤ length out.old }
    ensures text { Puts out.old out.new at (natural n) result }
    ensures within { result ≤ at + 20 }
{
    put_digits(out, at, n)
}

// A whole number.
pub fn put_number(out: &mut [u8], at: usize, x: i32) -> usize
    requires { at + 11 ≤ length out.old }
    ensures text { Puts out.old out.new at (decimal x) result }
    ensures within { result ≤ at + 11 }
{
    let magnitude = x.unsigned_abs() as usize;
    if x < 0 {
        out[at] = b'-';
        return put_digits(out, at + 1, magnitude);
    }
    put_digits(out, at, magnitude)
}
