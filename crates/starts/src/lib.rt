// Creation and begin: a new store, and a new transaction in it.
#![tactic(auto)]

ghost use Rattle.std.specs.Prelude.{◌≡◌, []};
ghost use Rattle.words.specs.Sizes.{base};
ghost use Rattle.rules.specs.Outcome.{out};
ghost use Rattle.rules.specs.Memory.{mem};
ghost use Rattle.rules.specs.Create.{create_out};
ghost use Rattle.gate.specs.FineLaws.{StoreFine};
ghost use Rattle.starts.specs.BeginLaws.{begin_rest};
ghost use Rattle.rules.specs.Lent.{lent, mem_in, mem_out};
ghost use Rattle.kinds.specs.Results.{done, begun};

use fresh::{clear_rows, clear_slots, free_cells, start};
use gate::fits;
use kinds::{Begun, Refusal};
use words::{CELL_WORDS, CLOCK, LAST_ID, TxId, WIDTH};

// A new store of n cells and r rows: an accepted creation starts a new history.
pub fn create(
    meta: &mut [u64],
    rows: &mut [u64],
    cells: &mut [[u64; CELL_WORDS]],
    slots: &mut [[u64; WIDTH]],
    n: u64,
    r: u64,
) -> Result<(), Refusal>
    ensures { out (done result) [] (mem_out meta rows cells slots) ≡ create_out (mem_in meta rows cells slots) n r }
{
    if !fits(meta, rows, cells, slots, r, n) {
        return Err(Refusal::BadSize);
    }
    start(meta, n, r);
    clear_rows(rows, r);
    free_cells(cells, n);
    clear_slots(slots);
    Ok(())
}

// A new transaction: the lowest empty slot, the clock's id, the snapshot. The store was tested.
pub fn begin(
    meta: &mut [u64],
    rows: &[u64],
    cells: &[[u64; CELL_WORDS]],
    slots: &mut [[u64; WIDTH]],
) -> Result<Begun, Refusal>
    requires { StoreFine (mem {z = base} meta.old rows.now cells.now slots.old) }
    ensures { out (begun result) [] (lent meta.new rows.now cells.now slots.new) ≡ begin_rest (lent meta.old rows.now cells.now slots.old) }
{
    let s = slots::lowest_empty(slots).ok_or(Refusal::NoFreeSlot)?;
    let id = meta[CLOCK];
    if id == LAST_ID {
        return Err(Refusal::ClockSpent);
    }
    meta[CLOCK] = id + 1;
    opens::occupy(slots, s, id);
    Ok(Begun {
        slot: s as u64,
        id: TxId(id),
    })
}
