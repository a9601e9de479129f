// The program `plan`; the gate runs it on instance A.
#![tactic(auto)]

use std::io;

fn main(rt: HostRuntime) -> io::Result<()> {
    plan_cli::program::run(&mut rt.stdin(), &mut rt.stdout())
}
