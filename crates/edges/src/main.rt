// Every public call at each boundary of paper 01 and one past it, on hand-made memory: the script is the file stdin, and what each call
// answers and changes is the file stdout, which was worked out from the paper.
#![tactic(auto)]

mod lines;

ghost use Rattle.std.specs.Prelude.{◌≤◌, length, IfOk};

use std::io;
use std::io::{Read, Write};

const LONGEST: usize = 400000;

// Reads until `into` is full or the input ends; how many bytes it put at the front. A loop of its own: std's `read_exact` fails where the
// input ends sooner, and `read_to_end` needs a heap.
fn read_full<R: Read>(from: &mut R, into: &mut [u8]) -> io::Result<usize>
    ensures { IfOk result (λ n. n ≤ length into.new) }
{
    let mut done = 0;
    while done < into.len() {
        match from.read(&mut into[done..])? {
            0 => break,
            n => done += n,
        }
    }
    Ok(done)
}

fn main(rt: HostRuntime) -> io::Result<()> {
    let mut input = rt.stdin();
    let mut output = rt.stdout();
    let mut script = [0u8; LONGEST + 1];
    let n = read_full(&mut input, &mut script)?;
    if n > LONGEST {
        return writeln!(output, "? the script is longer than {LONGEST} bytes");
    }
    lines::run(&mut output, &script[..n])
}
