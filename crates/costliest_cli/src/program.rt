// The program: the size that its input asks for is answered by the costliest instance of that size, and other input is refused.
ghost use Rattle.std.specs.Prelude.{OnOk};
ghost use Rattle.plan_cli.specs.Streams.{Answers};
ghost use Rattle.costliest_cli.specs.Written.{written};

use crate::size::size_asked;
use crate::tasks::put_instance;
use plan_cli::answerer;
use plan_cli::answerer::Answerer;
use plan_cli::lines::put_refused;
use std::io;
use std::io::{Read, Write};
use text::reading::Numbers;

// Bytes for any instance.
pub const ROOM: usize = 4096;

// What the program answers.
#[derive(Clone, Copy)]
pub struct Costliest;

impl Answerer for Costliest {
    ghost use Rattle.costliest_cli.specs.Asked.{asked_in};
    ghost use Rattle.costliest_cli.specs.Written as written;
    ghost use Rattle.costliest_cli.specs.Written.{answer_lines};

    ghost answer = { λ xs. answer_lines (asked_in xs) };

    ghost room = { written.ROOM };

    fn put(out: &mut [u8], numbers: Numbers) -> usize {
        match size_asked(numbers) {
            Some(n) => put_instance(out, n),
            None => put_refused(out, 0, 0),
        }
    }
}

// The whole program: what is written is the answer to the text that was read.
pub fn run<R: Read, W: Write>(input: &mut R, output: &mut W) -> io::Result<()>
    ensures { OnOk result (Answers written (R.remaining input.old) (R.remaining input.new)
        (W.contents output.old) (W.contents output.new)) }
{
    answerer::run::<Costliest, R, W>(input, output, &mut [0u8; ROOM])
}
