// Abort: its tests, then its changes in two passes. Every base of this id is unlocked before the first cell is given back.
#![tactic(auto)]

ghost use Rattle.std.specs.Prelude.{◌≡◌, [], ◌∷◌, ◌≤◌, length};
ghost use Rattle.words.specs.Sizes.{base, meta_words};
ghost use Rattle.words.specs.Lists.{fold};
ghost use Rattle.words.specs.Slots.{slot_of, write};
ghost use Rattle.rules.specs.Outcome.{each};
ghost use Rattle.kinds.specs.Results.{judged};
ghost use Rattle.rules.specs.Verdicts.{verdict};
ghost use Rattle.rules.specs.Abort.{unlock_base, news, give_back, abort_tests};
ghost use Rattle.rules.specs.Theory.Bridge.{BasesIn, AllCells};
ghost use Rattle.undo.specs.UndoLaws.{lent};

use arena::{check_cell, give_back, put_version, version_at};
use kinds::{Cell, Refusal};
use words::{CELL_WORDS, CELLS, TxId, WIDTH};

// One write's base and new cell, in a store of n cells.
#[tactic(auto, unfolding(rules::specs::Verdicts::verdict))]
fn check_entry(n: u64, base: Cell, new: Cell) -> Result<(), Refusal>
    ensures { judged result ≡ verdict (abort_tests (lent (0 ∷ n ∷ []) []) (write 0 base.0 new.0)) }
{
    if n < base.0 {
        return Err(Refusal::Damaged);
    }
    check_cell(n, new)
}

// All that an abort tests after its slot. Nothing is asked of the lent length.
#[tactic(auto, using(crate::proofs::Loops::tested))]
pub fn check_abort(meta: &[u64], slot: &[u64; WIDTH]) -> Result<(), Refusal>
    ensures { judged result ≡ verdict (each (abort_tests (lent meta.now [])) (slot_of base slot.now).writes) }
{
    let n = arena::word_at(meta, CELLS);
    for &[_, base, new] in lists::writes(slot) {
        check_entry(n, Cell(base), Cell(new))?;
    }
    Ok(())
}

// The base of one write, unlocked where its owner is this id. A base of 0 is no cell.
#[tactic(auto, unfolding(rules::specs::Abort::unlock_base))]
fn unlock_base(cells: &mut [[u64; CELL_WORDS]], base: Cell, id: TxId)
    requires { base.0 ≤ length cells.old }
    ensures { cells.new ≡ unlock_base id.0 (write 0 base.0 0) cells.old }
{
    if base.0 == 0 {
        return;
    }
    let old = version_at(cells, base);
    if old.owner == id {
        put_version(cells, base, old.unlocked());
    }
}

// Every base of this id unlocked, in write order.
#[tactic(auto, using(crate::proofs::Loops::in_order), unfolding(words::specs::Lists::fold, rules::specs::Abort::unlock_base))]
pub fn unlock_all(cells: &mut [[u64; CELL_WORDS]], slot: &[u64; WIDTH], id: TxId)
    requires { BasesIn cells.old (slot_of base slot.now).writes }
    ensures { cells.new ≡ fold (unlock_base id.0) (slot_of base slot.now).writes cells.old }
{
    for &[_, base, _] in lists::writes(slot) {
        unlock_base(cells, Cell(base), id);
    }
}

// Every new cell given back, in write order: the last is the next handed out.
#[tactic(auto, using(crate::proofs::Loops::given), unfolding(rules::specs::Abort::give_back))]
pub fn give_all(meta: &mut [u64], cells: &mut [[u64; CELL_WORDS]], slot: &[u64; WIDTH])
    requires meta_words_in_bounds { meta_words ≤ length meta.old }
    requires all_cells { AllCells cells.old (news (slot_of base slot.now).writes) }
    ensures { lent meta.new cells.new
        ≡ fold give_back (news (slot_of base slot.now).writes) (lent meta.old cells.old) }
{
    for &[_, _, new] in lists::writes(slot) {
        give_back(meta, cells, Cell(new));
    }
}
