// The memory of the bench: five lists of words, the cells, the slots, the reports, each longer than any store asks.
ghost use Rattle.std.specs.Prelude.{◌≤◌};

use words::{CELL_WORDS, WIDTH};

// Words of a list, cells (and reports), slots, words of a report.
pub const WORDS: usize = 264;

pub const CELLS: usize = 4100;

pub const SLOTS: usize = 18;

pub const REPORT_WORDS: usize = 3;

// The header, the heads of the rows, a lookup's results and its candidates; then how many entries of each arena are lent, in the order of
// the fields without itself.
#[derive(Clone, Copy)]
pub struct Memory {
    pub meta: [u64; WORDS],
    pub heads: [u64; WORDS],
    pub results: [u64; WORDS],
    pub wanted: [u64; WORDS],
    pub lent: [u64; WORDS],
    pub cells: [[u64; CELL_WORDS]; CELLS],
    pub slots: [[u64; WIDTH]; SLOTS],
    pub reports: [[u64; REPORT_WORDS]; CELLS],
}

// How many of `len` entries are lent where `lent` are said to be: all where more are said than there are.
pub fn front_len(lent: u64, len: usize) -> usize
    ensures { result ≤ len }
{
    lent.min(len as u64) as usize
}

// Each lent entry becomes `x`, the others `y`. Slice `fill` would want a clause that no clone of these fails.
fn fill<T: Copy>(arena: &mut [T], lent: u64, x: T, y: T) {
    let n = front_len(lent, arena.len());
    for entry in &mut arena[..n] {
        *entry = x;
    }
    for entry in &mut arena[n..] {
        *entry = y;
    }
}

impl Memory {
    pub const ZERO: Memory = Memory {
        meta: [0; WORDS],
        heads: [0; WORDS],
        results: [0; WORDS],
        wanted: [0; WORDS],
        lent: [0; WORDS],
        cells: [[0; CELL_WORDS]; CELLS],
        slots: [[0; WIDTH]; SLOTS],
        reports: [[0; REPORT_WORDS]; CELLS],
    };

    // Every word of a lent entry becomes `x`, of the entries beyond `y`. The list that says what is lent stays.
    pub fn fill(&mut self, x: u64, y: u64) {
        let [meta, heads, results, wanted, cells, slots, reports, ..] = self.lent;
        fill(&mut self.meta, meta, x, y);
        fill(&mut self.heads, heads, x, y);
        fill(&mut self.results, results, x, y);
        fill(&mut self.wanted, wanted, x, y);
        fill(&mut self.cells, cells, [x; CELL_WORDS], [y; CELL_WORDS]);
        fill(&mut self.slots, slots, [x; WIDTH], [y; WIDTH]);
        fill(
            &mut self.reports,
            reports,
            [x; REPORT_WORDS],
            [y; REPORT_WORDS],
        );
    }
}
