// The replay program again, run on broken input, whose last record ends in a lone CR.
#![tactic(auto)]

use std::io;

fn main(rt: HostRuntime) -> io::Result<()> {
    player::run(&mut rt.stdin(), &mut rt.stdout())
}
