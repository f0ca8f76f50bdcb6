// The two ends of a transaction whose slot was tested: commit and abort. Every test comes before the first store.
#![tactic(auto)]

ghost use Rattle.std.specs.Prelude.{[], ◌≡◌, ◌<◌, length, set};
ghost use Rattle.words.specs.Sizes.{base};
ghost use Rattle.words.specs.Slots.{emptied};
ghost use Rattle.rules.specs.Memory.{mem};
ghost use Rattle.rules.specs.Outcome.{out};
ghost use Rattle.kinds.specs.Results.{done};
ghost use Rattle.rules.specs.Lent.{lent};
ghost use Rattle.gate.specs.FineLaws.{SlotFine};
ghost use Rattle.ends.specs.CommitRest.{commit_rest};
ghost use Rattle.ends.specs.AbortRest.{abort_rest};

use kinds::Refusal;
use words::{CELL_WORDS, TxId, WIDTH};

// "The slot is emptied: every field 0."
fn empty(slots: &mut [[u64; WIDTH]], s: usize)
    requires { s < length slots.old }
    ensures { slots.new ≡ set slots.old s (emptied base) }
{
    slots[s] = [0; WIDTH];
}

// The writes are published together, or nothing is changed and the transaction stays open.
pub fn commit(
    meta: &[u64],
    rows: &mut [u64],
    cells: &mut [[u64; CELL_WORDS]],
    slots: &mut [[u64; WIDTH]],
    slot: u64,
    id: TxId,
) -> Result<(), Refusal>
    requires { SlotFine (mem {z = base} meta.now rows.old cells.old slots.old) slot id.0 }
    ensures { out (done result) [] (lent meta.now rows.new cells.new slots.new) ≡ commit_rest (lent meta.now rows.old cells.old slots.old) slot id.0 }
{
    let s = slot as usize;
    validate::check_commit(meta, rows, cells, &slots[s])?;
    publish::publish_all(rows, cells, &slots[s], id);
    empty(slots, s);
    Ok(())
}

// Bases that this id locked are unlocked, the prepared cells go back in write order, the slot is emptied.
pub fn abort(
    meta: &mut [u64],
    rows: &[u64],
    cells: &mut [[u64; CELL_WORDS]],
    slots: &mut [[u64; WIDTH]],
    slot: u64,
    id: TxId,
) -> Result<(), Refusal>
    requires { SlotFine (mem {z = base} meta.old rows.now cells.old slots.old) slot id.0 }
    ensures { out (done result) [] (lent meta.new rows.now cells.new slots.new) ≡ abort_rest (lent meta.old rows.now cells.old slots.old) slot id.0 }
{
    let s = slot as usize;
    undo::check_abort(meta, &slots[s])?;
    undo::unlock_all(cells, &slots[s], id);
    undo::give_all(meta, cells, &slots[s]);
    empty(slots, s);
    Ok(())
}
