// What the bench says: a name, and what a call answers in words. Where it says it is the caller's.
#![tactic(auto)]

use kinds::{Begun, Cell, Reading, Refusal, Vacuumed};
use std::io;
use std::io::Write;

// A blank and the name with a number in a list of names.
pub fn say_name<W: Write>(to: &mut W, names: &[&str], number: usize) -> io::Result<()> {
    let name = names.get(number).copied().unwrap_or("");
    write!(to, " {name}")
}

// What a call answers where it is not refused.
pub trait Answer {
    fn say<W: Write>(self, to: &mut W) -> io::Result<()>;
}

// How many rows a lookup lists.
#[derive(Clone, Copy, Debug, PartialEq, Eq)]
pub struct Listed(pub u64);

impl Answer for () {
    fn say<W: Write>(self, to: &mut W) -> io::Result<()> {
        write!(to, "ok")
    }
}

impl Answer for Begun {
    fn say<W: Write>(self, to: &mut W) -> io::Result<()> {
        write!(to, "slot {} id {}", self.slot, self.id.0)
    }
}

impl Answer for Reading {
    fn say<W: Write>(self, to: &mut W) -> io::Result<()> {
        match self {
            Reading::None => write!(to, "none"),
            Reading::Empty => write!(to, "empty"),
            Reading::Key(k) => write!(to, "key {k}"),
        }
    }
}

impl Answer for Cell {
    fn say<W: Write>(self, to: &mut W) -> io::Result<()> {
        write!(to, "cell {}", self.0)
    }
}

impl Answer for Vacuumed {
    fn say<W: Write>(self, to: &mut W) -> io::Result<()> {
        write!(to, "vacuumed {} live ", self.count)?;
        self.live.say(to)
    }
}

impl Answer for Listed {
    fn say<W: Write>(self, to: &mut W) -> io::Result<()> {
        write!(to, "listed {}", self.0)
    }
}

// The answer, or the refusal: its number and what it returns, 0 where the paper has it return nothing.
pub fn say<W: Write, A: Answer>(to: &mut W, answer: Result<A, Refusal>) -> io::Result<()> {
    match answer {
        Ok(a) => a.say(to),
        Err(r) => write!(to, "refused {} {}", r.number(), r.about()),
    }
}

// The entries of a buffer's front.
pub fn say_front<W: Write>(to: &mut W, front: &[u64]) -> io::Result<()> {
    write!(to, "front of {}:", front.len())?;
    for n in front {
        write!(to, " {n}")?;
    }
    Ok(())
}
