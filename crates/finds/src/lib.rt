// The rows of a lookup: which are read, and what reading them one by one comes to. Nothing lent by a caller is written here: records
// go into a copy of the slot and rows into a list beside it, so that a lookup refused late has changed nothing.
#![tactic(auto)]

ghost use Rattle.std.specs.Prelude.{◌≡◌, ◌+◌, ◌≤◌, ◌<◌, length, get_or, take};
ghost use Rattle.words.specs.Sizes.{base};
ghost use Rattle.words.specs.Lists.{fold};
ghost use Rattle.kinds.specs.Versions.{version_at};
ghost use Rattle.words.specs.Slots.{slot_of};
ghost use Rattle.rules.specs.Outcome.{each};
ghost use Rattle.kinds.specs.Results.{judged};
ghost use Rattle.rules.specs.Verdicts.{verdict};
ghost use Rattle.rules.specs.Read.{answer_at};
ghost use Rattle.rules.specs.Lookup.{is_key, own_rows};
ghost use Rattle.finds.specs.Marks.{marked, candidate_test, own_row_test};
ghost use Rattle.finds.specs.Sweep.{note, listing, sweep, list_at, step_row, sweep_rows, marked_rows};
ghost use Rattle.finds.specs.Listing.{Rows};

use kinds::{Cell, Refusal};
use reads::Sight;
use words::{CELL_WORDS, MOST_ROWS, WIDTH};

// ---- which rows

// A row marked. Rows that no store has are passed over: they are refused elsewhere, each with its own number.
fn mark(marks: &mut [u64; MOST_ROWS], row: u64)
    ensures { marks.new ≡ marked row marks.old }
{
    if row < MOST_ROWS as u64 {
        marks[row as usize] = 1;
    }
}

// The caller's candidates: any order, repeats allowed.
pub fn mark_all(marks: &mut [u64; MOST_ROWS], candidates: &[u64])
    ensures { marks.new ≡ fold marked candidates.now marks.old }
{
    for &row in candidates {
        mark(marks, row);
    }
}

// The rows of the write set.
pub fn mark_own(marks: &mut [u64; MOST_ROWS], slot: &[u64; WIDTH])
    ensures { marks.new ≡ fold marked (own_rows (slot_of base slot.now).writes) marks.old }
{
    for &[row, _, _] in lists::writes(slot) {
        mark(marks, row);
    }
}

// The first candidate at or above r, in the order of the list.
pub fn check_candidates(candidates: &[u64], r: u64) -> Result<(), Refusal>
    ensures { judged result ≡ verdict (each (candidate_test r) candidates.now) }
{
    for &row in candidates {
        if r <= row {
            return Err(Refusal::BadRow(row));
        }
    }
    Ok(())
}

// An own row at or above r.
pub fn check_own(slot: &[u64; WIDTH], r: u64) -> Result<(), Refusal>
    ensures { judged result ≡ verdict (each (own_row_test r) (own_rows (slot_of base slot.now).writes)) }
{
    for &[own, _, _] in lists::writes(slot) {
        if r <= own {
            return Err(Refusal::Damaged);
        }
    }
    Ok(())
}

// ---- reading them

// What is asked: the store as it is read, the key, and how many rows the caller's buffer holds.
#[derive(Clone, Copy)]
pub struct Search<'a> {
    pub rows: &'a [u64],
    pub cells: &'a [[u64; CELL_WORDS]],
    pub n: u64,
    pub key: u64,
    pub room: u64,
}

// What is gathered so far: a copy of the slot, with the records in it, and the rows listed, which are the first `count` of `rows`.
#[derive(Drop)]
pub struct Gathered {
    pub slot: [u64; WIDTH],
    pub rows: [u64; MOST_ROWS],
    pub count: u64,
    pub ghost few: { count ≤ base.rows },
}

impl Gathered {
    // The rows listed.
    pub fn rows(&self) -> &[u64]
        ensures { result.now ≡ take self.now.count self.now.rows }
    {
        &self.rows[..self.count as usize]
    }
}

impl<'a> Search<'a> {
    fn has_key(&self, c: Cell) -> bool
        ensures { result ≡ is_key self.now.key (answer_at (version_at self.now.cells.now) c.0) }
    {
        if c.0 == 0 {
            return false;
        }
        let v = arena::version_at(self.cells, c);
        v.keyed != 0 && v.key == self.key
    }

    // The row's version was found at c: it is listed where it has the key.
    fn list_row(&self, row: u64, c: Cell, found: &mut Gathered) -> Result<(), Refusal>
        requires { found.old.count < base.rows }
        ensures { sweep found.new.slot (note (listing found.new.count result) found.new.rows)
            ≡ sweep found.old.slot (list_at (version_at self.now.cells.now) self.now.key self.now.room row found.old.count found.old.rows c.0) }
    {
        if !self.has_key(c) {
            return Ok(());
        }
        if self.room <= found.count {
            return Err(Refusal::ResultFull);
        }
        found.rows[found.count as usize] = row;
        found.count += 1;
        Ok(())
    }

    // One row read. The copy of the slot is read, so a cell found for two rows is recorded once.
    fn step(&self, row: u64, found: &mut Gathered) -> Result<(), Refusal>
        requires count_lt_rows { found.old.count < base.rows }
        requires row_in_bounds { row < length self.now.rows.now }
        ensures { sweep found.new.slot (note (listing found.new.count result) found.new.rows)
            ≡ step_row (version_at self.now.cells.now) self.now.n self.now.key self.now.room
            (get_or self.now.rows.now row 0) row found.old.slot found.old.count found.old.rows }
    {
        let head = Cell(self.rows[row as usize]);
        let c = match reads::read_row(self.cells, self.n, &found.slot, head, row)? {
            Sight::Known(c) => c,
            Sight::Fresh { cell, xmin } => {
                reads::add_record(&mut found.slot, row, cell, xmin);
                cell
            }
        };
        self.list_row(row, c, found)
    }

    // Every marked row below r, ascending, until one stops the lookup.
    pub fn scan(
        &self,
        r: u64,
        marks: &[u64; MOST_ROWS],
        found: &mut Gathered,
    ) -> Result<(), Refusal>
        requires place_for_each { found.old.count + r ≤ base.rows }
        requires r_in_bounds { r ≤ length self.now.rows.now }
        ensures { sweep found.new.slot (note (listing found.new.count result) found.new.rows)
            ≡ sweep_rows (version_at self.now.cells.now) self.now.n self.now.key self.now.room
            self.now.rows.now (marked_rows marks.now 0 r)
            (sweep found.old.slot (note (Rows found.old.count) found.old.rows)) }
    {
        for row in 0..r {
            let marked = marks[row as usize] != 0;
            if marked {
                self.step(row, found)?;
            }
        }
        Ok(())
    }
}
