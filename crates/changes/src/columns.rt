// The words that are compared in a row.
use handmade::{Arena, CELLS, Spot, WORDS};
use words::{CELL_WORDS, WIDTH};

// The free link is the last word of a cell.
const LINK: usize = CELL_WORDS - 1;

// A list or a slot (by its number), or one word of all cells or all reports (by its place in them).
#[derive(Clone, Copy, Debug, PartialEq, Eq)]
pub enum Column {
    List(Arena),
    Slot(usize),
    CellWord(usize),
    ReportWord(usize),
}

impl Column {
    pub(crate) fn arena(self) -> Arena {
        match self {
            Column::List(list) => list,
            Column::Slot(_) => Arena::Slots,
            Column::CellWord(_) => Arena::Cells,
            Column::ReportWord(_) => Arena::Reports,
        }
    }

    pub(crate) fn len(self) -> usize {
        match self {
            Column::List(_) => WORDS,
            Column::Slot(_) => WIDTH,
            Column::CellWord(_) | Column::ReportWord(_) => CELLS,
        }
    }

    // Where its i-th word lies.
    pub(crate) fn spot(self, i: usize) -> Spot {
        let (entry, word) = match self {
            Column::List(_) => (0, i),
            Column::Slot(slot) => (slot, i),
            Column::CellWord(word) | Column::ReportWord(word) => (i, word),
        };
        Spot {
            arena: self.arena(),
            entry,
            word,
        }
    }

    // A link of the free list, a row listed and a cell reported often number the next one: there a run rises.
    pub(crate) fn rise(self) -> u64 {
        match self {
            Column::List(Arena::Results) | Column::CellWord(LINK) | Column::ReportWord(0) => 1,
            _ => 0,
        }
    }
}
