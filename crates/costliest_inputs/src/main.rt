// The program `costliest` on further inputs.
// Each input ends with a '%'. Its answer is written, and a '%' on a line after it.
#![tactic(auto)]

use costliest_cli::program::{Costliest, ROOM};
use plan_cli::inputs::answer_each;
use std::io;

// Bytes for all inputs.
const INPUTS: usize = 4096;

fn main(rt: HostRuntime) -> io::Result<()> {
    answer_each::<Costliest, _, _>(
        &mut rt.stdin(),
        &mut rt.stdout(),
        &mut [0u8; INPUTS],
        &mut [0u8; ROOM],
    )
}
