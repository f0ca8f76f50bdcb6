// The replay program again, run on empty input: no line.
#![tactic(auto)]

use std::io;

fn main(rt: HostRuntime) -> io::Result<()> {
    player::run(&mut rt.stdin(), &mut rt.stdout())
}
