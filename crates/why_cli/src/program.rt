// The program: the page of the conflict of an input's tasks, or what is written in its place.
ghost use Rattle.std.specs.Prelude.{OnOk};
ghost use Rattle.plan_cli.specs.Streams.{Answers};
ghost use Rattle.why_cli.specs.Written.{written};

use crate::page::put_why;
use plan_cli::answerer;
use plan_cli::answerer::Answerer;
use plan_cli::lines::put_refused;
use plan_cli::tasks::Tasks;
use std::io;
use std::io::{Read, Write};
use text::reading::Numbers;

// Bytes for any page.
const ROOM: usize = 4096;

// What the program answers.
#[derive(Clone, Copy)]
pub struct Why;

impl Answerer for Why {
    ghost use Rattle.plan_cli.specs.Printed.{listed_tasks};
    ghost use Rattle.why_cli.specs.Written as written;
    ghost use Rattle.why_cli.specs.Written.{why_of_tasks};

    ghost answer = { λ xs. why_of_tasks (listed_tasks xs) };

    ghost room = { written.ROOM };

    fn put(out: &mut [u8], numbers: Numbers) -> usize {
        match Tasks::read(numbers) {
            Ok(tasks) => put_why(out, &tasks),
            Err(why) => put_refused(out, 0, why.number()),
        }
    }
}

// The whole program: what is written is the answer to the text that was read.
pub fn run<R: Read, W: Write>(input: &mut R, output: &mut W) -> io::Result<()>
    ensures { OnOk result (Answers written (R.remaining input.old) (R.remaining input.new)
        (W.contents output.old) (W.contents output.new)) }
{
    answerer::run::<Why, R, W>(input, output, &mut [0u8; ROOM])
}
