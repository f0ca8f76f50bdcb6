// The words of the memory, named one by one.
use super::memory::Memory;
use std::fmt;

// The arenas: the lists first.
#[derive(Clone, Copy, Debug, PartialEq, Eq)]
pub enum Arena {
    Meta,
    Heads,
    Results,
    Wanted,
    Lent,
    Cells,
    Slots,
    Reports,
}

// What an entry of it is called.
impl fmt::Display for Arena {
    fn fmt<W: fmt::Write>(&self, f: &mut fmt::Formatter<W>) -> fmt::Result {
        f.write_str(match self {
            Arena::Meta => "meta",
            Arena::Heads => "head",
            Arena::Results => "result",
            Arena::Wanted => "wanted",
            Arena::Lent => "lent",
            Arena::Cells => "cell",
            Arena::Slots => "slot",
            Arena::Reports => "report",
        })
    }
}

// A word of the memory: its arena, the entry and the place in it. A list is one entry.
#[derive(Clone, Copy, Debug, PartialEq, Eq)]
pub struct Spot {
    pub arena: Arena,
    pub entry: usize,
    pub word: usize,
}

impl Memory {
    fn entry(&self, arena: Arena, i: usize) -> Option<&[u64]> {
        match arena {
            Arena::Meta => Some(&self.meta),
            Arena::Heads => Some(&self.heads),
            Arena::Results => Some(&self.results),
            Arena::Wanted => Some(&self.wanted),
            Arena::Lent => Some(&self.lent),
            Arena::Cells => Some(self.cells.get(i)?),
            Arena::Slots => Some(self.slots.get(i)?),
            Arena::Reports => Some(self.reports.get(i)?),
        }
    }

    fn entry_mut(&mut self, arena: Arena, i: usize) -> Option<&mut [u64]> {
        match arena {
            Arena::Meta => Some(&mut self.meta),
            Arena::Heads => Some(&mut self.heads),
            Arena::Results => Some(&mut self.results),
            Arena::Wanted => Some(&mut self.wanted),
            Arena::Lent => Some(&mut self.lent),
            Arena::Cells => Some(self.cells.get_mut(i)?),
            Arena::Slots => Some(self.slots.get_mut(i)?),
            Arena::Reports => Some(self.reports.get_mut(i)?),
        }
    }

    // The word at a spot, where there is one.
    pub fn word(&self, spot: Spot) -> Option<u64> {
        self.entry(spot.arena, spot.entry)?.get(spot.word).copied()
    }

    // The same, to be written.
    pub fn word_mut(&mut self, spot: Spot) -> Option<&mut u64> {
        self.entry_mut(spot.arena, spot.entry)?.get_mut(spot.word)
    }
}
