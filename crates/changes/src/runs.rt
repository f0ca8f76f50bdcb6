// Neighbours of a column that changed alike, and how they are told.
use crate::columns::Column;
use handmade::Arena;
use saying::say_name;
use script::names;
use std::io;
use std::io::Write;
use words::{ACTIVE, READS, WRITES};

// The first and the last of them, and what these two became.
#[derive(Clone, Copy, Debug, PartialEq, Eq)]
pub struct Run {
    from: usize,
    to: usize,
    value: u64,
    last: u64,
}

impl Run {
    // The i-th word alone, which became x.
    pub(crate) fn new(i: usize, x: u64) -> Run {
        Run {
            from: i,
            to: i,
            value: x,
            last: x,
        }
    }

    // The run with the i-th word, which became x; none where that begins another.
    pub(crate) fn with(self, i: usize, x: u64, rise: u64) -> Option<Run> {
        let is_next = self.to.wrapping_add(1) == i && self.last.wrapping_add(rise) == x;
        is_next.then_some(Run {
            to: i,
            last: x,
            ..self
        })
    }
}

// A word of a triple: of an entry or a record.
fn say_triple<W: Write>(to: &mut W, what: &str, i: usize, names: &[&str]) -> io::Result<()> {
    write!(to, " {what} {}", i / 3)?;
    say_name(to, names, i % 3)
}

fn say_slot_word<W: Write>(to: &mut W, k: usize) -> io::Result<()> {
    match k {
        WRITES => write!(to, " writes"),
        READS => write!(to, " reads"),
        _ if k <= ACTIVE => say_name(to, &names::SLOT, k),
        _ if k < WRITES => write!(to, " active {}", k - ACTIVE - 1),
        _ if k < READS => say_triple(to, "entry", k - WRITES - 1, &names::ENTRY),
        _ => say_triple(to, "record", k - READS - 1, &names::RECORD),
    }
}

// The i-th of a column.
fn say_place<W: Write>(to: &mut W, c: Column, i: usize) -> io::Result<()> {
    match c {
        Column::List(Arena::Meta) => say_name(to, &names::META, i),
        Column::List(_) | Column::ReportWord(_) => write!(to, " {i}"),
        Column::Slot(_) => say_slot_word(to, i),
        Column::CellWord(_) => write!(to, " {}", i.wrapping_add(1)),
    }
}

// The word, where the column is one word of many entries.
fn say_word<W: Write>(to: &mut W, c: Column) -> io::Result<()> {
    match c {
        Column::CellWord(word) => say_name(to, &names::CELL, word),
        Column::ReportWord(word) => say_name(to, &names::REPORT, word),
        Column::List(_) | Column::Slot(_) => Ok(()),
    }
}

// A run, where there is one.
pub fn say_run<W: Write>(to: &mut W, c: Column, run: Option<Run>) -> io::Result<()> {
    let Some(run) = run else {
        return Ok(());
    };
    let is_long = run.from < run.to;
    write!(to, "  {}", c.arena())?;
    if let Column::Slot(slot) = c {
        write!(to, " {slot}")?;
    }
    say_place(to, c, run.from)?;
    if is_long {
        write!(to, " to")?;
        say_place(to, c, run.to)?;
    }
    say_word(to, c)?;
    write!(to, " = {}", run.value)?;
    if is_long && c.rise() > 0 {
        write!(to, " and up")?;
    }
    writeln!(to)
}
