// Read and write of a row by a transaction whose slot was tested. The store calls these; `SlotFine` is what its test has shown.
#![tactic(auto)]

ghost use Rattle.std.specs.Prelude.{[], ◌≡◌, ◌<◌, get_or};
ghost use Rattle.std.proofs.Math.Option.{none};
ghost use Rattle.words.specs.Sizes.{base};
ghost use Rattle.words.specs.Sizes as words;
ghost use Rattle.kinds.specs.Versions.{given, version_at};
ghost use Rattle.rules.specs.Memory.{mem};
ghost use Rattle.rules.specs.Outcome.{out};
ghost use Rattle.rules.specs.Read.{answer_at};
ghost use Rattle.rules.specs.Write.{write_now};
ghost use Rattle.rules.specs.Lent.{lent};
ghost use Rattle.gate.specs.FineLaws.{StoreFine, SlotFine};
ghost use Rattle.access.specs.ReadRest.{read_rest};
ghost use Rattle.access.specs.WriteRest.{again_out, write_rest};
ghost use Rattle.kinds.specs.Results.{reading, seen, wrote};

use kinds::{Cell, Reading, Refusal};
use reads::Sight;
use words::{CELL_WORDS, CELLS, FREE, ROWS, TxId, WIDTH};

// No version, a version without a key, or a key.
#[tactic(auto, unfolding(rules::specs::Read::answer_at))]
fn answer_at(cells: &[[u64; CELL_WORDS]], c: Cell) -> Reading
    ensures { reading result ≡ answer_at (version_at cells.now) c.0 }
{
    if c.0 == 0 {
        return Reading::None;
    }
    arena::version_at(cells, c).reading()
}

pub fn read(
    meta: &[u64],
    rows: &[u64],
    cells: &[[u64; CELL_WORDS]],
    slots: &mut [[u64; WIDTH]],
    slot: u64,
    id: TxId,
    row: u64,
) -> Result<Reading, Refusal>
    requires { SlotFine (mem {z = base} meta.now rows.now cells.now slots.old) slot id.0 }
    ensures { out (seen result) [] (lent meta.now rows.now cells.now slots.new) ≡ read_rest (lent meta.now rows.now cells.now slots.old) slot row }
{
    if meta[ROWS] <= row {
        return Err(Refusal::BadRow(row));
    }
    let s = slot as usize;
    match reads::read_row(cells, meta[CELLS], &slots[s], Cell(rows[row as usize]), row)? {
        Sight::Known(c) => Ok(answer_at(cells, c)),
        Sight::Fresh { cell, xmin } => {
            reads::add_record(&mut slots[s], row, cell, xmin);
            Ok(answer_at(cells, cell))
        }
    }
}

// The row has an own entry: its value is replaced, and it keeps its cell.
fn write_again(
    meta: &[u64],
    rows: &[u64],
    cells: &mut [[u64; CELL_WORDS]],
    slots: &[[u64; WIDTH]],
    c: Cell,
    value: Option<u64>,
) -> Result<Cell, Refusal>
    requires { StoreFine (mem {z = base} meta.now rows.now cells.old slots.now) }
    ensures { out (wrote result) [] (lent meta.now rows.now cells.new slots.now) ≡ again_out (lent meta.now rows.now cells.old slots.now) c.0 (given value) }
{
    arena::check_cell(meta[CELLS], c)?;
    writes::replace(cells, c, value);
    Ok(c)
}

// The row has no own entry: every test, then the base locked, a cell prepared, an entry added.
fn write_first(
    meta: &mut [u64],
    rows: &[u64],
    cells: &mut [[u64; CELL_WORDS]],
    slots: &mut [[u64; WIDTH]],
    slot: u64,
    id: TxId,
    row: u64,
    value: Option<u64>,
) -> Result<Cell, Refusal>
    requires slot_fine { SlotFine (mem {z = base} meta.old rows.now cells.old slots.old) slot id.0 }
    requires row_bound { row < get_or meta.old words.ROWS 0 }
    ensures { out (wrote result) [] (lent meta.new rows.now cells.new slots.new) ≡ write_now (lent meta.old rows.now cells.old slots.old) slot id.0 row (given value) none }
{
    let s = slot as usize;
    let head = Cell(rows[row as usize]);
    writes::check_head(meta, cells, &slots[s], id, row, head)?;
    writes::check_room(meta, &slots[s])?;
    let new = Cell(meta[FREE]);
    writes::prepare(meta, cells, head, id, value);
    writes::add_entry(&mut slots[s], row, head, new);
    Ok(new)
}

#[tactic(auto, using(crate::specs::WriteRest::write_bad_row, crate::specs::WriteRest::write_own, crate::specs::WriteRest::write_first))]
pub fn write(
    meta: &mut [u64],
    rows: &[u64],
    cells: &mut [[u64; CELL_WORDS]],
    slots: &mut [[u64; WIDTH]],
    slot: u64,
    id: TxId,
    row: u64,
    value: Option<u64>,
) -> Result<Cell, Refusal>
    requires { SlotFine (mem {z = base} meta.old rows.now cells.old slots.old) slot id.0 }
    ensures { out (wrote result) [] (lent meta.new rows.now cells.new slots.new) ≡ write_rest (lent meta.old rows.now cells.old slots.old) slot id.0 row (given value) }
{
    if meta[ROWS] <= row {
        return Err(Refusal::BadRow(row));
    }
    match reads::own_cell(&slots[slot as usize], row) {
        Some(c) => write_again(meta, rows, cells, slots, c, value),
        None => write_first(meta, rows, cells, slots, slot, id, row, value),
    }
}
