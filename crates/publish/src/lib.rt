// The changes of a commit, after every test. Each write is three stores, and what they store is in the slot and the id: no store decides
// what a later one writes. Cut anywhere and made again from the start, the sequence ends the same (specs/Stores.antt).
#![tactic(auto)]

ghost use Rattle.std.specs.Prelude.{◌≡◌, ◌≤◌, length};
ghost use Rattle.words.specs.Sizes.{base};
ghost use Rattle.words.specs.Slots.{slot_of, write};
ghost use Rattle.rules.specs.Commit as rule;
ghost use Rattle.rules.specs.Theory.Bridge.{WriteIn, AllIn};
ghost use Rattle.publish.specs.PublishLaws.{lent};

use arena::{put_version, version_at};
use kinds::Cell;
use words::{CELL_WORDS, TxId, WIDTH};

// The base, where there is one, is superseded by this id and unlocked.
#[tactic(auto, unfolding(rules::specs::Commit::mark_base))]
fn mark_base(cells: &mut [[u64; CELL_WORDS]], base: Cell, id: TxId)
    requires { base.0 ≤ length cells.old }
    ensures { cells.new ≡ rule.mark_base id.0 base.0 cells.old }
{
    if base.0 == 0 {
        return;
    }
    let marked = version_at(cells, base).with_xmax(id).unlocked();
    put_version(cells, base, marked);
}

// One write made public: the base marked, the new version linked to it, the head moved.
#[tactic(auto, unfolding(rules::specs::Commit::publish))]
fn publish_one(
    rows: &mut [u64],
    cells: &mut [[u64; CELL_WORDS]],
    row: u64,
    base: Cell,
    new: Cell,
    id: TxId,
)
    requires { WriteIn (lent rows.old cells.old) (write row base.0 new.0) }
    ensures { lent rows.new cells.new
        ≡ rule.publish id.0 (write row base.0 new.0) (lent rows.old cells.old) }
{
    mark_base(cells, base, id);
    let fresh = version_at(cells, new);
    put_version(cells, new, fresh.with_next(base));
    rows[row as usize] = new.0;
}

// Every write of a slot made public, in order.
#[tactic(auto, using(crate::proofs::Loops::in_order), unfolding(words::specs::Lists::fold))]
pub fn publish_all(rows: &mut [u64], cells: &mut [[u64; CELL_WORDS]], slot: &[u64; WIDTH], id: TxId)
    requires { AllIn (lent rows.old cells.old) (slot_of base slot.now).writes }
    ensures { lent rows.new cells.new
        ≡ rule.publish_all id.0 (slot_of base slot.now).writes (lent rows.old cells.old) }
{
    for &[row, base, new] in lists::writes(slot) {
        publish_one(rows, cells, row, Cell(base), Cell(new), id);
    }
}
