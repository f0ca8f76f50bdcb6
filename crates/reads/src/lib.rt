// A row as an open transaction reads it: its own write, else the first visible version; and the read records.
#![tactic(auto)]

ghost use Rattle.std.specs.Prelude.{◌≡◌, ◌<◌, get_or};
ghost use Rattle.words.specs.Sizes.{base};
ghost use Rattle.words.specs.Sizes as words;
ghost use Rattle.kinds.specs.Versions.{version_at};
ghost use Rattle.words.specs.Slots.{slot_of, rec, add_rec};
ghost use Rattle.rules.specs.Chain.{look};
ghost use Rattle.rules.specs.Read as spec;
ghost use Rattle.reads.specs.Found.{own_of, found_of};
ghost use Rattle.reads.specs.Sights.{told, record_of};

use arena::Broken;
use kinds::{Cell, Refusal};
use words::{CELL_WORDS, MOST_READS, READS, TxId, WIDTH};

// What a row holds for a reader: its own write, a version of the chain, nothing.
#[derive(Clone, Copy, PartialEq, Eq)]
pub enum Found {
    Own(Cell),
    Version(Cell),
    Nothing,
}

// The own write of the row, from the last entry back: the last of them counts.
pub fn own_cell(slot: &[u64; WIDTH], row: u64) -> Option<Cell>
    ensures { result ≡ own_of (spec.own (slot_of base slot.now).writes row) }
{
    lists::writes(slot)
        .iter()
        .rev()
        .find(|w| w[0] == row)
        .map(|w| Cell(w[2]))
}

// Is the cell recorded already?
pub fn is_recorded(slot: &[u64; WIDTH], c: Cell) -> bool
    ensures { result ≡ spec.recorded c.0 (slot_of base slot.now).recs }
{
    let recs = lists::records(slot);
    recs.iter().any(|r| r[1] == c.0)
}

// A row read, and nothing recorded yet. n is the store's N, head the row's.
#[tactic(auto, using(crate::specs::Found::found_own, crate::specs::Found::found_harmed, crate::specs::Found::found_along))]
pub fn find_row(
    cells: &[[u64; CELL_WORDS]],
    n: u64,
    slot: &[u64; WIDTH],
    head: Cell,
    row: u64,
) -> Result<Found, Broken>
    ensures { result ≡ found_of n (spec.own (slot_of base slot.now).writes row)
        (look n (slot_of base slot.now) (version_at cells.now) base.walk head.0) }
{
    if let Some(c) = own_cell(slot, row) {
        return if arena::is_cell(n, c) {
            Ok(Found::Own(c))
        } else {
            Err(Broken::Harmed)
        };
    }
    let seen = arena::first_visible(cells, n, slot, head)?;
    Ok(seen.map_or(Found::Nothing, Found::Version))
}

// One record more.
pub fn add_record(slot: &mut [u64; WIDTH], row: u64, c: Cell, xmin: TxId)
    requires { get_or slot.old (words.READS base) 0 < base.reads }
    ensures { slot.new ≡ add_rec base (rec row c.0 xmin.0) slot.old }
{
    lists::push(slot, READS, row, c.0, xmin.0);
}

// What a read of one row finds: a cell with nothing to record (cell 0 is no version); a cell that is to be recorded.
#[derive(Clone, Copy, PartialEq, Eq)]
pub enum Sight {
    Known(Cell),
    Fresh { cell: Cell, xmin: TxId },
}

// A version found on the chain: is it to be recorded, and is there room?
#[tactic(auto, using(crate::specs::Sights::records_count), unfolding(crate::specs::Sights::record_of))]
fn recording(
    cells: &[[u64; CELL_WORDS]],
    slot: &[u64; WIDTH],
    c: Cell,
    row: u64,
) -> Result<Sight, Refusal>
    ensures { told row result ≡ record_of (version_at cells.now) (slot_of base slot.now).recs row c.0 }
{
    if is_recorded(slot, c) {
        return Ok(Sight::Known(c));
    }
    if slot[READS] >= MOST_READS as u64 {
        return Err(Refusal::ReadSetFull(row));
    }
    let xmin = arena::version_at(cells, c).xmin;
    Ok(Sight::Fresh { cell: c, xmin })
}

#[tactic(auto, using(crate::specs::Sights::read_row_is))]
pub fn read_row(
    cells: &[[u64; CELL_WORDS]],
    n: u64,
    slot: &[u64; WIDTH],
    head: Cell,
    row: u64,
) -> Result<Sight, Refusal>
    ensures { told row result ≡ spec.read_row base n (version_at cells.now) head.0
        (slot_of base slot.now) (slot_of base slot.now).recs row }
{
    match find_row(cells, n, slot, head, row) {
        Ok(Found::Own(c)) => Ok(Sight::Known(c)),
        Ok(Found::Version(c)) => recording(cells, slot, c, row),
        Ok(Found::Nothing) => Ok(Sight::Known(Cell(0))),
        Err(Broken::TooLong) => Err(Refusal::ChainTooLong(row)),
        Err(Broken::Harmed) => Err(Refusal::Damaged),
    }
}
