// Lines that several commands answer with. Each is written to the output as it comes, and a write that fails ends the answer.
use std::io;
use std::io::Write;

// A command that is not understood.
pub fn say_error<W: Write>(output: &mut W) -> io::Result<()> {
    writeln!(output, "error")
}

// The number that refused a call.
pub fn say_refused<W: Write>(output: &mut W, number: u32) -> io::Result<()> {
    writeln!(output, "refused {number}")
}

// The variable of a contradiction.
pub fn say_contradiction<W: Write>(output: &mut W, x: usize) -> io::Result<()> {
    writeln!(output, "contradiction {x}")
}

// Whole numbers, a space before each, and the end of the line.
pub fn say_numbers<W: Write>(output: &mut W, xs: &[i32]) -> io::Result<()> {
    for x in xs {
        write!(output, " {x}")?;
    }
    writeln!(output)
}

// The first n bytes, or none where there are not so many.
pub fn say_part<W: Write>(output: &mut W, bytes: &[u8], n: usize) -> io::Result<()> {
    output.write_all(bytes.get(..n).unwrap_or(&[]))
}
