// The arena of cells: a version read and stored whole, the walk along a chain, the free list.
//
// That a cell is in the arena (`HasCell`) is a fact of the two, and a lent header may be longer than its words: so these are asked for by
// clauses, and no type of one of them has them.
#![tactic(auto)]

ghost use Rattle.std.specs.Prelude.{MatchOption, ◌≡◌, not, [], ◌∷◌, ◌≤◌, length, get_or, set};
ghost use Rattle.words.specs.Sizes.{base, meta_words};
ghost use Rattle.words.specs.Sizes as words;
ghost use Rattle.kinds.specs.Versions.{empty_version, version_of, words_of, cell_at, version_at, link_at, put_cell, put_version};
ghost use Rattle.words.specs.Slots.{slot_of};
ghost use Rattle.rules.specs.Numbers.{damaged};
ghost use Rattle.rules.specs.Outcome.{test, is_cell};
ghost use Rattle.kinds.specs.Results.{judged};
ghost use Rattle.rules.specs.Verdicts.{verdict};
ghost use Rattle.rules.specs.Chain.{look};
ghost use Rattle.rules.specs.Theory.CellLaws.{HasCell};
ghost use Rattle.arena.specs.Sights.{sighted};

use kinds::{Cell, Refusal, Version};
use words::{CELL_WORDS, FREE, TxId, WALK, WIDTH};

// A word of a lent arena; past its end, 0.
pub fn word_at(words: &[u64], i: usize) -> u64
    ensures { result ≡ get_or words.now i 0 }
{
    words.get(i).copied().unwrap_or(0)
}

// Is c the number of a cell, in a store of n cells?
pub fn is_cell(n: u64, c: Cell) -> bool
    ensures { result ≡ is_cell n c.0 }
{
    (1..=n).contains(&c.0)
}

// A number that a call is about to use as a cell's.
#[tactic(auto, unfolding(rules::specs::Verdicts::verdict))]
pub fn check_cell(n: u64, cell: Cell) -> Result<(), Refusal>
    ensures { judged result ≡ verdict (test (not (is_cell n cell.0)) damaged 0 ∷ []) }
{
    if is_cell(n, cell) {
        Ok(())
    } else {
        Err(Refusal::Damaged)
    }
}

// A cell's words, read as a version.
#[tactic(auto, unfolding(kinds::specs::Versions::version_of))]
fn unpacked(w: &[u64; CELL_WORDS]) -> Version
    ensures { result ≡ version_of w.now }
{
    let [xmin, xmax, next, keyed, key, locked, owner, _] = *w;
    Version {
        xmin: TxId(xmin),
        xmax: TxId(xmax),
        next: Cell(next),
        keyed,
        key,
        locked,
        owner: TxId(owner),
    }
}

// A version as a cell's words, with the cell's free link.
#[tactic(auto, unfolding(kinds::specs::Versions::words_of))]
fn packed(v: Version, link: u64) -> [u64; CELL_WORDS]
    ensures { result ≡ words_of v link }
{
    [
        v.xmin.0, v.xmax.0, v.next.0, v.keyed, v.key, v.locked, v.owner.0, link,
    ]
}

// The words of cell c; none where there is no such cell.
#[tactic(auto, using(crate::specs::CellReads::cell_none, crate::specs::CellReads::cell_got))]
fn cell(cells: &[[u64; CELL_WORDS]], c: Cell) -> Option<&[u64; CELL_WORDS]>
    ensures { MatchOption result (cell_at cells.now c.0 ≡ []) (λ w. cell_at cells.now c.0 ≡ w.now) }
{
    let i = c.0.checked_sub(1)?;
    cells.get(i as usize)
}

// The version in cell c; where there is no such cell, the empty one.
#[tactic(auto, unfolding(kinds::specs::Versions::version_of))]
pub fn version_at(cells: &[[u64; CELL_WORDS]], c: Cell) -> Version
    ensures { result ≡ version_at cells.now c.0 }
{
    cell(cells, c).map_or(Version::EMPTY, unpacked)
}

// A version stored whole, its cell's free link kept.
pub fn put_version(cells: &mut [[u64; CELL_WORDS]], c: Cell, v: Version)
    requires { HasCell cells.old c.0 }
    ensures { cells.new ≡ put_version cells.old c.0 v }
{
    let link = link_at(cells, c);
    put_cell(cells, c, v, link);
}

// Why a row's version is not found: its chain is too long, or a number leads out of the store.
#[derive(Clone, Copy, PartialEq, Eq)]
pub enum Broken {
    TooLong,
    Harmed,
}

// The first visible version from the head on, among the first WALK. A pointer is followed only after the limit was tested.
#[tactic(auto, using(crate::specs::LookLaws::look_end, crate::specs::LookLaws::look_limit, crate::specs::LookLaws::look_harmed, crate::specs::LookLaws::look_found, crate::specs::LookLaws::look_next))]
pub fn first_visible(
    cells: &[[u64; CELL_WORDS]],
    n: u64,
    slot: &[u64; WIDTH],
    head: Cell,
) -> Result<Option<Cell>, Broken>
    ensures { result ≡ sighted (look n (slot_of base slot.now) (version_at cells.now) base.walk head.0) }
{
    let mut c = head;
    for _ in 0..WALK {
        if c.0 == 0 {
            return Ok(None);
        }
        if n < c.0 {
            return Err(Broken::Harmed);
        }
        let v = version_at(cells, c);
        if v.is_visible(slot) {
            return Ok(Some(c));
        }
        c = v.next;
    }
    if c.0 == 0 {
        Ok(None)
    } else {
        Err(Broken::TooLong)
    }
}

// A version stored whole, with the free link given: a cell prepared, or cleared.
#[tactic(auto, unfolding(kinds::specs::Versions::put_cell))]
pub fn put_cell(cells: &mut [[u64; CELL_WORDS]], c: Cell, v: Version, link: u64)
    requires { HasCell cells.old c.0 }
    ensures { cells.new ≡ put_cell cells.old c.0 v link }
{
    cells[(c.0 - 1) as usize] = packed(v, link);
}

// The free link of a cell; 0 where there is no such cell.
pub fn link_at(cells: &[[u64; CELL_WORDS]], c: Cell) -> u64
    ensures { result ≡ link_at cells.now c.0 }
{
    cell(cells, c).map_or(0, |w| w[7])
}

// A cell given back: cleared, and the next to be handed out.
pub fn give_back(meta: &mut [u64], cells: &mut [[u64; CELL_WORDS]], c: Cell)
    requires meta_words_in_bounds { meta_words ≤ length meta.old }
    requires has_cell { HasCell cells.old c.0 }
    ensures meta_after { meta.new ≡ set meta.old words.FREE c.0 }
    ensures cells_after { cells.new ≡ put_cell cells.old c.0 empty_version (get_or meta.old words.FREE 0) }
{
    put_cell(cells, c, Version::EMPTY, meta[FREE]);
    meta[FREE] = c.0;
}
