// Why an instance cannot fit: an instance is read as `plan` reads it, and the page of its conflict is written.
#![tactic(auto)]

use std::io;

fn main(rt: HostRuntime) -> io::Result<()> {
    why_cli::program::run(&mut rt.stdin(), &mut rt.stdout())
}
