// A script, line by line. A line `case ..` is told as it stands; `memory X Y` makes every word of the lent entries X and of the others Y;
// a line that makes memory is carried out; a call is told with its answer and all that it changed.
use changes::tell_changes;
use handmade::{Memory, poke};
use script::args::Args;
use script::text::{LINE_END, split_word};
use script::verbs::{Call, Verb};
use std::io;
use std::io::Write;

fn say_line<W: Write>(to: &mut W, line: &[u8]) -> io::Result<()> {
    to.write_all(line)?;
    writeln!(to)
}

// The call, and what it changed.
fn run_call<W: Write>(to: &mut W, mem: &mut Memory, call: Call, args: &Args) -> io::Result<()> {
    let before = *mem;
    bench::run(to, mem, call, args)?;
    writeln!(to)?;
    tell_changes(to, &before, mem)
}

fn carry_out<W: Write>(to: &mut W, mem: &mut Memory, line: &[u8]) -> io::Result<()> {
    let (word, rest) = split_word(line);
    let Some(verb) = Verb::named(word) else {
        return writeln!(to, "?");
    };
    // the words of a case are told as they stand, and not read
    let args = match verb {
        Verb::Case => None,
        _ => Args::parse(rest, verb),
    };
    match (verb, args) {
        (Verb::Case, _) => say_line(to, line),
        (_, None) => {
            write!(to, "? not understood: ")?;
            say_line(to, line)
        }
        (Verb::Memory, Some(args)) => {
            mem.fill(args.at(0), args.at(1));
            Ok(())
        }
        (Verb::Poke(verb), Some(args)) => poke(to, mem, verb, &args),
        (Verb::Call(call), Some(args)) => {
            to.write_all(line)?;
            write!(to, ": ")?;
            run_call(to, mem, call, &args)
        }
    }
}

// Every line of a script, on memory that is all 0 at first.
pub fn run<W: Write>(to: &mut W, script: &[u8]) -> io::Result<()> {
    let mut mem = Memory::ZERO;
    for line in script.split_inclusive(|b| *b == LINE_END) {
        carry_out(to, &mut mem, line.strip_suffix(&[LINE_END]).unwrap_or(line))?;
    }
    Ok(())
}
