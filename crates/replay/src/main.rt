// The program that answers the oracle's commands on standard input; the gate runs it on fixed lists.
#![tactic(auto)]

use std::io;

fn main(rt: HostRuntime) -> io::Result<()> {
    replay_cli::serving::serve(&mut rt.stdin(), &mut rt.stdout())
}
