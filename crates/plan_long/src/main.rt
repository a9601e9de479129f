// The program `plan` on 100 KB of white space around instance A, which it reads in many pieces.
#![tactic(auto)]

use std::io;

fn main(rt: HostRuntime) -> io::Result<()> {
    plan_cli::program::run(&mut rt.stdin(), &mut rt.stdout())
}
