// The program `costliest`: n is read, and the costliest instance of n tasks is written as `plan` reads it.
#![tactic(auto)]

use std::io;

fn main(rt: HostRuntime) -> io::Result<()> {
    costliest_cli::program::run(&mut rt.stdin(), &mut rt.stdout())
}
