// The program `plan` on further inputs.
// Each input ends with a '%'. Its answer is written, and a '%' on a line after it.
// The answers in `stdout` are the published Rust's, after the program's own reading of its input.
#![tactic(auto)]

use plan_cli::inputs::answer_each;
use plan_cli::program::{Plan, ROOM};
use std::io;

// Bytes for all inputs.
const INPUTS: usize = 65536;

fn main(rt: HostRuntime) -> io::Result<()> {
    answer_each::<Plan, _, _>(
        &mut rt.stdin(),
        &mut rt.stdout(),
        &mut [0u8; INPUTS],
        &mut [0u8; ROOM],
    )
}
