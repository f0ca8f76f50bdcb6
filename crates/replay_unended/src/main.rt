// The replay program again, run on input whose last record lacks its CR LF.
#![tactic(auto)]

use std::io;

fn main(rt: HostRuntime) -> io::Result<()> {
    player::run(&mut rt.stdin(), &mut rt.stdout())
}
