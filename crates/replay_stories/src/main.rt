// The replay program again, run on the stories that docs/STORIES.md tells.
#![tactic(auto)]

use std::io;

fn main(rt: HostRuntime) -> io::Result<()> {
    player::run(&mut rt.stdin(), &mut rt.stdout())
}
