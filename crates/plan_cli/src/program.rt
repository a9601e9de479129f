// The program `plan`: an input's tasks are planned, and the run is printed; or the number that refused it.
ghost use Rattle.std.specs.Prelude.{OnOk};
ghost use Rattle.plan_cli.specs.Printed.{printed};
ghost use Rattle.plan_cli.specs.Streams.{Answers};

use crate::answerer;
use crate::answerer::Answerer;
use crate::lines::put_refused;
use crate::plan::plan;
use crate::report::put_run;
use crate::tasks::Tasks;
use integers::limits::{ATOMWORDS, POSTWORDS, TASKS};
use std::io;
use std::io::{Read, Write};
use text::reading::Numbers;

// Bytes for the lines of any run.
pub const ROOM: usize = 160000;

// What the program answers.
#[derive(Clone, Copy)]
pub struct Plan;

impl Answerer for Plan {
    ghost use Rattle.plan_cli.specs.RunLines.{answer_lines};
    ghost use Rattle.plan_cli.specs.Printed.{answered};
    ghost use Rattle.plan_cli.specs.RunSlices as run_slices;

    ghost answer = { λ xs. answer_lines (answered xs) };

    ghost room = { run_slices.ROOM };

    fn put(out: &mut [u8], numbers: Numbers) -> usize {
        let tasks = match Tasks::read(numbers) {
            Ok(tasks) => tasks,
            Err(why) => return put_refused(out, 0, why.number()),
        };
        let mut starts = [0i32; TASKS];
        let starts = &mut starts[..tasks.count()];
        starts.copy_from_slice(tasks.earliest());
        let mut posts = [0i32; POSTWORDS];
        let mut atoms = [0i32; ATOMWORDS];
        let outcome = plan(
            starts,
            tasks.latest(),
            tasks.durations(),
            &mut posts,
            &mut atoms,
        );
        put_run(out, outcome, &posts, &atoms, starts)
    }
}

// The whole program: what is written is the answer to the text that was read.
pub fn run<R: Read, W: Write>(input: &mut R, output: &mut W) -> io::Result<()>
    ensures { OnOk result (Answers printed (R.remaining input.old) (R.remaining input.new)
        (W.contents output.old) (W.contents output.new)) }
{
    answerer::run::<Plan, R, W>(input, output, &mut [0u8; ROOM])
}
