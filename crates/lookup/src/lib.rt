// Lookup of a key by a transaction whose slot was tested, over a caller's candidates or over all rows; and the filled front of a
// caller's buffer. All rows are read first: slot and buffer are written at the end, so a refused lookup leaves both as they were.
#![tactic(auto)]

ghost use Rattle.std.specs.Prelude.{◌≡◌, ◌≤◌, length};
ghost use Rattle.std.proofs.lemmas.List.Edits.{sets};
ghost use Rattle.words.specs.Sizes.{base};
ghost use Rattle.rules.specs.Memory.{mem};
ghost use Rattle.rules.specs.Lookup.{front_of};
ghost use Rattle.rules.specs.Lent.{lent};
ghost use Rattle.kinds.specs.Results.{judged, listed};
ghost use Rattle.gate.specs.FineLaws.{SlotFine};
ghost use Rattle.lookup.specs.LookupRest.{Filled, search_out, rows_out, lookup_rest, lookup_all_rest};

use finds::{Gathered, Search};
use kinds::Refusal;
use words::{CELL_WORDS, CELLS, MOST_ROWS, ROWS, TxId, WIDTH};

// The first `count` entries of the buffer: all of them where count is past the end.
pub fn front<'a>(buffer: &'a [u64], count: u64) -> &'a [u64]
    ensures { result.now ≡ front_of buffer.now count }
{
    let end = count.min(buffer.len() as u64) as usize;
    &buffer[..end]
}

// The same, to be written.
pub fn front_mut<'a>(buffer: &'a mut [u64], count: u64) -> &'a mut [u64]
    ensures { result.now ≡ front_of buffer.old count }
{
    let end = count.min(buffer.len() as u64) as usize;
    &mut buffer[..end]
}

// The rows listed, at the front of the caller's buffer.
fn fill(results: &mut [u64], listed: &[u64])
    requires { length listed.now ≤ length results.old }
    ensures { results.new ≡ sets results.old 0 listed.now }
{
    results[..listed.len()].copy_from_slice(listed);
}

// The marked rows are read; `late` is what refuses the lookup after all of them. Records are gathered in a copy of the slot.
fn search(
    meta: &[u64],
    rows: &[u64],
    cells: &[[u64; CELL_WORDS]],
    slots: &mut [[u64; WIDTH]],
    slot: u64,
    id: TxId,
    key: u64,
    marks: &[u64; MOST_ROWS],
    late: Result<(), Refusal>,
    results: &mut [u64],
) -> Result<u64, Refusal>
    requires { SlotFine (mem {z = base} meta.now rows.now cells.now slots.old) slot id.0 }
    ensures { Filled (search_out (lent meta.now rows.now cells.now slots.old) slot key marks.now (judged late) (length results.old))
        (listed result) (lent meta.now rows.now cells.now slots.new) results.old results.new }
{
    let s = slot as usize;
    let asked = Search {
        rows,
        cells,
        n: meta[CELLS],
        key,
        room: results.len() as u64,
    };
    // Made in place: a function that returned it would copy it once more.
    let mut found = Gathered {
        slot: slots[s],
        rows: [0; MOST_ROWS],
        count: 0,
    };
    asked.scan(meta[ROWS], marks, &mut found)?;
    late?;
    slots[s] = found.slot;
    fill(results, found.rows());
    Ok(found.count)
}

// The candidates are rows of the store: they and the own rows are read.
fn lookup_rows(
    meta: &[u64],
    rows: &[u64],
    cells: &[[u64; CELL_WORDS]],
    slots: &mut [[u64; WIDTH]],
    slot: u64,
    id: TxId,
    key: u64,
    candidates: &[u64],
    results: &mut [u64],
) -> Result<u64, Refusal>
    requires { SlotFine (mem {z = base} meta.now rows.now cells.now slots.old) slot id.0 }
    ensures { Filled (rows_out (lent meta.now rows.now cells.now slots.old) slot key candidates.now (length results.old))
        (listed result) (lent meta.now rows.now cells.now slots.new) results.old results.new }
{
    let s = slot as usize;
    let mut marks = [0; MOST_ROWS];
    finds::mark_all(&mut marks, candidates);
    finds::mark_own(&mut marks, &slots[s]);
    let late = finds::check_own(&slots[s], meta[ROWS]);
    search(
        meta, rows, cells, slots, slot, id, key, &marks, late, results,
    )
}

// The rows with this key among the candidates and the own rows, ascending, at the front of `results`.
pub fn lookup(
    meta: &[u64],
    rows: &[u64],
    cells: &[[u64; CELL_WORDS]],
    slots: &mut [[u64; WIDTH]],
    slot: u64,
    id: TxId,
    key: u64,
    candidates: &[u64],
    results: &mut [u64],
) -> Result<u64, Refusal>
    requires { SlotFine (mem {z = base} meta.now rows.now cells.now slots.old) slot id.0 }
    ensures { Filled (lookup_rest (lent meta.now rows.now cells.now slots.old) slot key candidates.now (length results.old))
        (listed result) (lent meta.now rows.now cells.now slots.new) results.old results.new }
{
    finds::check_candidates(candidates, meta[ROWS])?;
    lookup_rows(meta, rows, cells, slots, slot, id, key, candidates, results)
}

// The rows with this key among all rows.
pub fn lookup_all(
    meta: &[u64],
    rows: &[u64],
    cells: &[[u64; CELL_WORDS]],
    slots: &mut [[u64; WIDTH]],
    slot: u64,
    id: TxId,
    key: u64,
    results: &mut [u64],
) -> Result<u64, Refusal>
    requires { SlotFine (mem {z = base} meta.now rows.now cells.now slots.old) slot id.0 }
    ensures { Filled (lookup_all_rest (lent meta.now rows.now cells.now slots.old) slot key (length results.old))
        (listed result) (lent meta.now rows.now cells.now slots.new) results.old results.new }
{
    let marks = [1; MOST_ROWS];
    search(
        meta,
        rows,
        cells,
        slots,
        slot,
        id,
        key,
        &marks,
        Ok(()),
        results,
    )
}
