// A write: its tests on the row's head and on room, and what it stores.
#![tactic(auto)]

ghost use Rattle.std.specs.Prelude.{◌≡◌, [], ◌<◌, ◌≤◌, length, get_or, set};
ghost use Rattle.words.specs.Sizes.{base, meta_words};
ghost use Rattle.words.specs.Sizes as words;
ghost use Rattle.kinds.specs.Versions.{given, new_version, with_value, version_at, link_at, put_cell, put_version};
ghost use Rattle.words.specs.Slots.{slot_of, write, add_write};
ghost use Rattle.rules.specs.Memory.{mem};
ghost use Rattle.rules.specs.Write.{lock_base, head_tests};
ghost use Rattle.kinds.specs.Results.{judged};
ghost use Rattle.rules.specs.Verdicts.{verdict};
ghost use Rattle.rules.specs.Theory.CellLaws.{HasCell};
ghost use Rattle.writes.specs.Room.{room_tests};

use kinds::{Cell, Refusal, Version};
use words::{CELL_WORDS, CELLS, FREE, MOST_WRITES, TxId, WIDTH, WRITES};

// The row has no own entry: may its head be the base of one?
#[tactic(auto, unfolding(rules::specs::Verdicts::verdict, rules::specs::Write::head_tests))]
pub fn check_head(
    meta: &[u64],
    cells: &[[u64; CELL_WORDS]],
    slot: &[u64; WIDTH],
    id: TxId,
    row: u64,
    head: Cell,
) -> Result<(), Refusal>
    ensures { judged result ≡ verdict (head_tests (mem {z = base} meta.now [] cells.now []) (slot_of base slot.now) id.0 row head.0) }
{
    if arena::word_at(meta, CELLS) < head.0 {
        return Err(Refusal::Damaged);
    }
    if head.0 == 0 {
        return Ok(());
    }
    let v = arena::version_at(cells, head);
    if v.is_locked_by_other(id) {
        return Err(Refusal::RowLocked(row));
    }
    if !v.is_visible(slot) {
        return Err(Refusal::WriteConflict(row));
    }
    Ok(())
}

// Is there room for an entry, and a free cell?
#[tactic(auto, unfolding(rules::specs::Verdicts::verdict))]
pub fn check_room(meta: &[u64], slot: &[u64; WIDTH]) -> Result<(), Refusal>
    ensures { judged result ≡ verdict (room_tests base meta.now slot.now) }
{
    let entries = slot[WRITES];
    let free = arena::word_at(meta, FREE);
    if entries >= MOST_WRITES as u64 {
        return Err(Refusal::WriteSetFull);
    }
    if free == 0 {
        return Err(Refusal::NoRoom);
    }
    if arena::word_at(meta, CELLS) < free {
        return Err(Refusal::Damaged);
    }
    Ok(())
}

// The base is locked for this id; a row without a version has nothing to lock.
#[tactic(auto, unfolding(rules::specs::Write::lock_base))]
fn lock_base(cells: &mut [[u64; CELL_WORDS]], head: Cell, id: TxId)
    requires { head.0 ≤ length cells.old }
    ensures { cells.new ≡ lock_base cells.old head.0 id.0 }
{
    if head.0 == 0 {
        return;
    }
    let v = arena::version_at(cells, head);
    arena::put_version(cells, head, v.locked_for(id));
}

// A cell is taken from the free list and prepared. Its link is read before the base is locked: on damaged memory they may be one cell.
pub fn prepare(
    meta: &mut [u64],
    cells: &mut [[u64; CELL_WORDS]],
    head: Cell,
    id: TxId,
    value: Option<u64>,
)
    requires meta_words_in_bounds { meta_words ≤ length meta.old }
    requires head_in_bounds { head.0 ≤ length cells.old }
    requires has_cell { HasCell cells.old (get_or meta.old words.FREE 0) }
    ensures meta_after { meta.new ≡ set meta.old words.FREE (link_at cells.old (get_or meta.old words.FREE 0)) }
    ensures cells_after { cells.new ≡ put_cell (lock_base cells.old head.0 id.0) (get_or meta.old words.FREE 0)
        (new_version (given value) id.0 0) 0 }
{
    let c = meta[FREE];
    meta[FREE] = arena::link_at(cells, Cell(c));
    lock_base(cells, head, id);
    arena::put_cell(cells, Cell(c), Version::new(value, id, Cell(0)), 0);
}

// An own entry's value, replaced in its cell.
pub fn replace(cells: &mut [[u64; CELL_WORDS]], c: Cell, value: Option<u64>)
    requires { HasCell cells.old c.0 }
    ensures { cells.new ≡ put_version cells.old c.0 (with_value (version_at cells.old c.0) (given value)) }
{
    let v = arena::version_at(cells, c);
    arena::put_version(cells, c, v.with_value(value));
}

// One entry more.
pub fn add_entry(slot: &mut [u64; WIDTH], row: u64, head: Cell, new: Cell)
    requires { get_or slot.old (words.WRITES base) 0 < base.writes }
    ensures { slot.new ≡ add_write base (write row head.0 new.0) slot.old }
{
    lists::push(slot, WRITES, row, head.0, new.0);
}
