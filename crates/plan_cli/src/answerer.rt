// Programs that answer the numbers of an input with a text: what is printed for a text that is at hand, and the whole program. Only reading and writing is
// assumed.
ghost use Rattle.std.specs.Prelude.{List, ◌≡◌, ℕ, ℤ, ◌≤◌, OnOk, length};
ghost use Rattle.std.proofs.Math.Option.{Option};
ghost use Rattle.text.specs.DecimalText.{Puts};
ghost use Rattle.text.specs.Numbers.{numbers_in};
ghost use Rattle.text.specs.Scanner.{gathered};
ghost use Rattle.plan_cli.specs.Printed.{TextWritten};
ghost use Rattle.plan_cli.specs.Streams.{Answers};

use crate::stdin::read_numbers;
use std::io;
use std::io::{Read, Write};
use text::reading::{Numbers, numbers_of};

// What answers the numbers of an input.
pub trait Answerer {
    // The answer to these numbers, or to an input that is no list of numbers.
    ghost answer: { Option (List ℤ) → List ℕ };

    // Bytes for any answer.
    ghost room: { ℕ };

    // Puts the answer into a buffer, from its front on, and says how many bytes it has.
    fn put(out: &mut [u8], numbers: Numbers) -> usize
        requires { room ≤ length out.old }
        ensures text { (xs : Option (List ℤ)) → numbers ≡ gathered xs → Puts out.old out.new 0 (answer xs) result }
        ensures within { result ≤ length out.old };
}

// What is printed for a text that is at hand whole.
pub fn print<A: Answerer>(out: &mut [u8], text: &[u8]) -> usize
    requires { A.room ≤ length out.old }
    ensures { TextWritten out.new result (A.answer (numbers_in text.now)) }
{
    A::put(out, numbers_of(text))
}

// The whole program, with a buffer for its answer: what is written is the answer to the text that was read.
pub fn run<A: Answerer, R: Read, W: Write>(
    input: &mut R,
    output: &mut W,
    out: &mut [u8],
) -> io::Result<()>
    requires { A.room ≤ length out.old }
    ensures { OnOk result (Answers (λ text. A.answer (numbers_in text)) (R.remaining input.old) (R.remaining input.new)
        (W.contents output.old) (W.contents output.new)) }
{
    let n = A::put(out, read_numbers(input));
    output.write_all(&out[..n])
}
