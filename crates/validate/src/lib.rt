// The judge of a commit: every test that paper 01 has for it, in its order, and no change. Nothing is asked of the lent lengths: what is
// not there reads as 0, as the rules read it.
#![tactic(auto)]

ghost use Rattle.std.specs.Prelude.{◌≡◌, []};
ghost use Rattle.words.specs.Sizes.{base};
ghost use Rattle.words.specs.Slots.{slot_of, write, rec};
ghost use Rattle.kinds.specs.Visible.{conflict};
ghost use Rattle.rules.specs.Outcome.{each};
ghost use Rattle.kinds.specs.Results.{judged};
ghost use Rattle.rules.specs.Verdicts.{verdict};
ghost use Rattle.rules.specs.Commit.{record_tests, base_tests, new_tests, commit_tests};
ghost use Rattle.validate.specs.Arenas.{lent, sized};

use arena::{check_cell, version_at};
use kinds::{Cell, Refusal, Version};
use words::{CELL_WORDS, CELLS, ID, ROWS, TOP, TxId, WIDTH, is_active};

// Validation of one version against the xmin that was recorded for it.
#[tactic(auto, unfolding(kinds::specs::Visible::conflict, words::specs::Slots::slot_of))]
fn is_conflict(slot: &[u64; WIDTH], v: Version, xmin: TxId) -> bool
    ensures { result ≡ conflict (slot_of base slot.now) v xmin.0 }
{
    if v.xmin != xmin {
        return true;
    }
    let ended = v.xmax;
    if ended.0 == 0 || ended.0 == slot[ID] {
        return false;
    }
    ended.0 >= slot[TOP] || is_active(slot, ended)
}

// One read record, in a store of n cells.
#[tactic(auto, unfolding(rules::specs::Verdicts::verdict))]
fn check_record(
    cells: &[[u64; CELL_WORDS]],
    n: u64,
    slot: &[u64; WIDTH],
    row: u64,
    cell: Cell,
    xmin: TxId,
) -> Result<(), Refusal>
    ensures { judged result ≡ verdict
        (record_tests (sized 0 n [] cells.now) (slot_of base slot.now) (rec row cell.0 xmin.0)) }
{
    check_cell(n, cell)?;
    if is_conflict(slot, version_at(cells, cell), xmin) {
        return Err(Refusal::ReadConflict(row));
    }
    Ok(())
}

// Every read record, in order.
#[tactic(auto, using(crate::proofs::Loops::tested))]
pub fn check_records(
    meta: &[u64],
    cells: &[[u64; CELL_WORDS]],
    slot: &[u64; WIDTH],
) -> Result<(), Refusal>
    ensures { judged result ≡ verdict
        (each (record_tests (lent meta.now [] cells.now) (slot_of base slot.now))
        (slot_of base slot.now).recs) }
{
    let n = arena::word_at(meta, CELLS);
    for &[row, cell, xmin] in lists::records(slot) {
        check_record(cells, n, slot, row, Cell(cell), TxId(xmin))?;
    }
    Ok(())
}

// One write's head and base, in a store of r rows and n cells. A base of 0 still has its head to match.
#[tactic(auto, unfolding(rules::specs::Verdicts::verdict))]
fn check_base(
    rows: &[u64],
    cells: &[[u64; CELL_WORDS]],
    r: u64,
    n: u64,
    row: u64,
    base: Cell,
) -> Result<(), Refusal>
    ensures { judged result ≡ verdict (base_tests (sized r n rows.now cells.now) (write row base.0 0)) }
{
    if row >= r {
        return Err(Refusal::Damaged);
    }
    if arena::word_at(rows, row as usize) != base.0 {
        return Err(Refusal::WriteConflict(row));
    }
    if base.0 == 0 {
        return Ok(());
    }
    if n < base.0 {
        return Err(Refusal::Damaged);
    }
    if version_at(cells, base).xmax.0 != 0 {
        return Err(Refusal::WriteConflict(row));
    }
    Ok(())
}

// The head and the base of every write, in order.
#[tactic(auto, using(crate::proofs::Loops::tested))]
pub fn check_bases(
    meta: &[u64],
    rows: &[u64],
    cells: &[[u64; CELL_WORDS]],
    slot: &[u64; WIDTH],
) -> Result<(), Refusal>
    ensures { judged result ≡ verdict
        (each (base_tests (lent meta.now rows.now cells.now))
        (slot_of base slot.now).writes) }
{
    let r = arena::word_at(meta, ROWS);
    let n = arena::word_at(meta, CELLS);
    for &[row, base, _] in lists::writes(slot) {
        check_base(rows, cells, r, n, row, Cell(base))?;
    }
    Ok(())
}

// Every write's new cell, in order. The changes use it first, so its damage is told after every head and base.
#[tactic(auto, using(crate::proofs::Loops::tested))]
pub fn check_news(meta: &[u64], slot: &[u64; WIDTH]) -> Result<(), Refusal>
    ensures { judged result ≡ verdict (each (new_tests (lent meta.now [] [])) (slot_of base slot.now).writes) }
{
    let n = arena::word_at(meta, CELLS);
    for &[_, _, new] in lists::writes(slot) {
        check_cell(n, Cell(new))?;
    }
    Ok(())
}

// All that a commit tests after its slot. One without writes has nothing to test: it just ends.
#[tactic(auto, using(crate::proofs::CommitLaws::judge_none, crate::proofs::CommitLaws::judge_some))]
pub fn check_commit(
    meta: &[u64],
    rows: &[u64],
    cells: &[[u64; CELL_WORDS]],
    slot: &[u64; WIDTH],
) -> Result<(), Refusal>
    ensures { judged result ≡ verdict
        (commit_tests (lent meta.now rows.now cells.now)
        (slot_of base slot.now) (slot_of base slot.now).writes) }
{
    if lists::writes(slot).is_empty() {
        return Ok(());
    }
    check_records(meta, cells, slot)?;
    check_bases(meta, rows, cells, slot)?;
    check_news(meta, slot)
}
