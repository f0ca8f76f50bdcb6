// The replay program: calls of the version store as records on standard input, an answer line for each. The store that it lends starts with
// every field zero.
#![tactic(auto)]

use std::io;

fn main(rt: HostRuntime) -> io::Result<()> {
    player::run(&mut rt.stdin(), &mut rt.stdout())
}
