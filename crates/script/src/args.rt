// The numbers that follow a line's first word. A name stands for the place of the word that it names.
ghost use Rattle.std.specs.Prelude.{◌≤◌};
ghost use Rattle.script.specs.declared.args.TheConstants.{ARGS};

use super::names::{CELL, ENTRY, LENT, META, RECORD, place};
use super::text::BLANK;
use super::verbs::{Poke, Verb};
use words::{ACTIVE, ID, LOW, READS, TOP, WRITES};

// Numbers of a line at most.
pub const ARGS: usize = 24;

#[derive(Clone, Copy)]
pub struct Args {
    words: [u64; ARGS],
    count: usize,
    ghost within: { count ≤ ARGS },
}

impl Args {
    // The numbers of a line after its first word; none where there are too many, or something is no number and no name.
    pub fn parse(text: &[u8], verb: Verb) -> Option<Args> {
        let mut args = Args {
            words: [0; ARGS],
            count: 0,
        };
        for word in text.split_inclusive(|b| *b == BLANK) {
            args.push(number(word.strip_suffix(&[BLANK]).unwrap_or(word), verb)?)?;
        }
        Some(args)
    }

    fn push(&mut self, x: u64) -> Option<()> {
        if self.count >= ARGS {
            return None;
        }
        self.words[self.count] = x;
        self.count += 1;
        Some(())
    }

    // Those that the line gives.
    pub fn given(&self) -> &[u64] {
        &self.words[..self.count]
    }

    // Those after the first n.
    pub fn after(&self, n: usize) -> &[u64] {
        self.given().get(n..).unwrap_or(&[])
    }

    // The same two by two: 0 where the last lacks its second.
    pub fn pairs_after(&self, n: usize) -> &[[u64; 2]] {
        let (pairs, _) = self.words.get(n..).unwrap_or(&[]).as_chunks::<2>();
        pairs
            .get(..self.count.saturating_sub(n).div_ceil(2))
            .unwrap_or(pairs)
    }

    // The i-th, 0 where the line gives none.
    pub fn at(&self, i: usize) -> u64 {
        self.given().get(i).copied().unwrap_or(0)
    }
}

fn number(word: &[u8], verb: Verb) -> Option<u64> {
    digits::parse(word).or_else(|| name(word, verb).map(|at| at as u64))
}

// A name after a verb: the place of the word that it names.
fn name(word: &[u8], verb: Verb) -> Option<usize> {
    let Verb::Poke(poke) = verb else {
        return None;
    };
    match poke {
        Poke::Lend => place(word, &LENT),
        Poke::Meta => place(word, &META),
        Poke::Cell | Poke::Cells => place(word, &CELL),
        Poke::Slot | Poke::Slots => slot_word(word),
        Poke::Entries => place(word, &ENTRY),
        Poke::Records => place(word, &RECORD),
        _ => None,
    }
}

// A word of a slot that has a name.
fn slot_word(word: &[u8]) -> Option<usize> {
    match word {
        b"id" => Some(ID),
        b"low" => Some(LOW),
        b"top" => Some(TOP),
        b"actives" => Some(ACTIVE),
        b"writes" => Some(WRITES),
        b"reads" => Some(READS),
        _ => None,
    }
}
