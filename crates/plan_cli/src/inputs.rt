// Several inputs in one text, each ended by a '%'.
ghost use Rattle.std.specs.Prelude.{◌≡◌, ◌+◌, ◌≤◌, length, drop};
ghost use Rattle.plan_cli.specs.Inputs.{first_mark};

use crate::answerer::{Answerer, print};
use crate::stdin::read_full;
use std::io;
use std::io::{Read, Write};

// The byte that ends an input.
const MARK: u8 = b'%';

// The place of the first '%' from `from` on, or the end.
pub fn end_of(inputs: &[u8], from: usize) -> usize
    requires { from ≤ length inputs.now }
    ensures place { result ≡ from + first_mark (drop from inputs.now) }
    ensures within { (from ≤ result) × (result ≤ length inputs.now) }
{
    for i in from..inputs.len() {
        if inputs[i] == MARK {
            return i;
        }
    }
    inputs.len()
}

// Answers each input of a text, and writes a '%' on a line after each answer. The text is read into one buffer, and an answer is put into the other.
pub fn answer_each<A: Answerer, R: Read, W: Write>(
    input: &mut R,
    output: &mut W,
    text: &mut [u8],
    out: &mut [u8],
) -> io::Result<()>
    requires { A.room ≤ length out.old }
{
    let read = read_full(input, text);
    let inputs = &text[..read];
    let mut from = 0;
    while from < inputs.len() {
        let end = end_of(inputs, from);
        let n = print::<A>(out, &inputs[from..end]);
        output.write_all(&out[..n])?;
        output.write_all(b"%\n")?;
        from = end + 1;
    }
    Ok(())
}
