// The lines that make memory: words named one by one, words side by side, or a series of words.
use super::memory::{CELLS, Memory, front_len};
use super::spots::{Arena, Spot};
use script::args::Args;
use script::verbs::Poke;
use std::io;
use std::io::Write;
use words::{READS, WIDTH, WRITES};

// How far the next word is: so many entries and so many words.
#[derive(Clone, Copy)]
struct Step {
    entries: usize,
    words: usize,
}

// To the word beside it, to the same word of the next entry, and of the next triple of a slot's list.
const WORD: Step = Step {
    entries: 0,
    words: 1,
};

const ENTRY: Step = Step {
    entries: 1,
    words: 0,
};

const TRIPLE: Step = Step {
    entries: 0,
    words: 3,
};

impl Spot {
    fn on(self, by: Step) -> Spot {
        Spot {
            arena: self.arena,
            entry: self.entry.wrapping_add(by.entries),
            word: self.word.wrapping_add(by.words),
        }
    }
}

// A word that the memory does not have is told.
fn put<W: Write>(to: &mut W, mem: &mut Memory, spot: Spot, x: u64) -> io::Result<()> {
    match mem.word_mut(spot) {
        Some(word) => {
            *word = x;
            Ok(())
        }
        None => writeln!(to, "? no such word"),
    }
}

// Words named one by one, each with its value.
fn put_named<W: Write>(
    to: &mut W,
    mem: &mut Memory,
    entry: Spot,
    words: &[[u64; 2]],
) -> io::Result<()> {
    for [word, x] in words {
        let by = Step {
            entries: 0,
            words: *word as usize,
        };
        put(to, mem, entry.on(by), *x)?;
    }
    Ok(())
}

// Words side by side.
fn put_row<W: Write>(to: &mut W, mem: &mut Memory, first: Spot, words: &[u64]) -> io::Result<()> {
    let mut at = first;
    for x in words {
        put(to, mem, at, *x)?;
        at = at.on(WORD);
    }
    Ok(())
}

// A series ends with how many words, the first value and the rise: each next word is a step on, its value `rise` more.
fn put_series<W: Write>(
    to: &mut W,
    mem: &mut Memory,
    first: Spot,
    step: Step,
    numbers: &[u64],
) -> io::Result<()> {
    let [.., count, value, rise] = numbers else {
        return writeln!(to, "? not enough numbers");
    };
    let mut at = first;
    let mut x = *value;
    for _ in 0..front_len(*count, CELLS) {
        put(to, mem, at, x)?;
        at = at.on(step);
        x = x.wrapping_add(*rise);
    }
    Ok(())
}

// A word of the i-th of the triples that start at a place; past the end where no slot has as many.
fn triple(start: usize, i: u64, word: u64) -> usize {
    if i > WIDTH as u64 {
        return usize::MAX;
    }
    start
        .wrapping_add(3 * i as usize)
        .wrapping_add(word as usize)
}

// The first word that a line reaches.
fn first(poke: Poke, args: &Args) -> Spot {
    let [a, b, c] = [args.at(0), args.at(1), args.at(2)];
    let (arena, entry, word) = match poke {
        Poke::Lend => (Arena::Lent, 0, 0),
        Poke::Meta => (Arena::Meta, 0, 0),
        Poke::Head | Poke::Heads => (Arena::Heads, 0, a as usize),
        Poke::Want | Poke::Wants => (Arena::Wanted, 0, a as usize),
        Poke::Cell => (Arena::Cells, a.wrapping_sub(1) as usize, 0),
        Poke::Cells => (Arena::Cells, a.wrapping_sub(1) as usize, b as usize),
        Poke::Slot | Poke::Open => (Arena::Slots, a as usize, 0),
        Poke::Slots => (Arena::Slots, a as usize, b as usize),
        Poke::Entry => (Arena::Slots, a as usize, triple(WRITES + 1, b, 0)),
        Poke::Record => (Arena::Slots, a as usize, triple(READS + 1, b, 0)),
        Poke::Entries => (Arena::Slots, a as usize, triple(WRITES + 1, b, c)),
        Poke::Records => (Arena::Slots, a as usize, triple(READS + 1, b, c)),
    };
    Spot { arena, entry, word }
}

// Memory made by hand, as a line says.
pub fn poke<W: Write>(to: &mut W, mem: &mut Memory, poke: Poke, args: &Args) -> io::Result<()> {
    let at = first(poke, args);
    match poke {
        Poke::Lend | Poke::Meta => put_named(to, mem, at, args.pairs_after(0)),
        Poke::Cell | Poke::Slot => put_named(to, mem, at, args.pairs_after(1)),
        Poke::Head | Poke::Want | Poke::Open => put_row(to, mem, at, args.after(1)),
        Poke::Entry | Poke::Record => put_row(to, mem, at, args.after(2)),
        Poke::Heads | Poke::Wants => put_series(to, mem, at, WORD, args.given()),
        Poke::Cells | Poke::Slots => put_series(to, mem, at, ENTRY, args.given()),
        Poke::Entries | Poke::Records => put_series(to, mem, at, TRIPLE, args.given()),
    }
}
