// What every call tests first: sizes and clock, then slot, owner and counts. What a test has shown (`StoreFine`, `SlotFine`) speaks of all four
// arenas at once, so it is a fact that calls ask for and no invariant of a type (crates/store says why there is none that holds them).
#![tactic(auto)]

ghost use Rattle.std.specs.Prelude.{◌≡◌};
ghost use Rattle.words.specs.Sizes.{base};
ghost use Rattle.rules.specs.Outcome as spec;
ghost use Rattle.rules.specs.Outcome.{store_tests, slot_tests};
ghost use Rattle.kinds.specs.Results.{judged};
ghost use Rattle.rules.specs.Verdicts.{verdict};
ghost use Rattle.rules.specs.Lent.{lent};
ghost use Rattle.gate.specs.FineLaws.{broken, anothers, overfull, owner_tests};

use kinds::Refusal;
use words::{
    ACTIVE, CELL_WORDS, CELLS, CLOCK, ID, META_WORDS, MOST_CELLS, MOST_READS, MOST_ROWS,
    MOST_WRITES, READS, ROWS, SLOTS, TxId, WIDTH, WRITES,
};

// R and N are in range, and the lent lengths are long enough for them.
#[tactic(auto, using(std::proofs::lemmas::Bool::Decides::nat_tests), unfolding(rules::specs::Outcome::fits))]
pub fn fits(
    meta: &[u64],
    rows: &[u64],
    cells: &[[u64; CELL_WORDS]],
    slots: &[[u64; WIDTH]],
    r: u64,
    n: u64,
) -> bool
    ensures { result ≡ spec.fits (lent meta.now rows.now cells.now slots.now) r n }
{
    (1..=MOST_ROWS as u64).contains(&r)
        && (1..=MOST_CELLS as u64).contains(&n)
        && META_WORDS <= meta.len()
        && r <= rows.len() as u64
        && n <= cells.len() as u64
        && SLOTS <= slots.len()
}

// The saved sizes do not fit, or the clock is 0.
fn is_damaged(
    meta: &[u64],
    rows: &[u64],
    cells: &[[u64; CELL_WORDS]],
    slots: &[[u64; WIDTH]],
) -> bool
    ensures { result ≡ broken (lent meta.now rows.now cells.now slots.now) }
{
    // a shorter meta saves no sizes and no clock
    meta.len() <= CLOCK
        || !fits(meta, rows, cells, slots, meta[ROWS], meta[CELLS])
        || meta[CLOCK] == 0
}

// The store can be worked on.
#[tactic(auto, unfolding(rules::specs::Verdicts::verdict, rules::specs::Outcome::store_tests))]
pub fn check_store(
    meta: &[u64],
    rows: &[u64],
    cells: &[[u64; CELL_WORDS]],
    slots: &[[u64; WIDTH]],
) -> Result<(), Refusal>
    ensures { judged result ≡ verdict (store_tests (lent meta.now rows.now cells.now slots.now)) }
{
    if is_damaged(meta, rows, cells, slots) {
        return Err(Refusal::Damaged);
    }
    Ok(())
}

// The presented id is not the slot's. An empty slot's id is 0, so 0 is no one's.
fn is_anothers(asked: u64, found: u64) -> bool
    ensures { result ≡ anothers asked found }
{
    asked == 0 || asked != found
}

// One of the three counts is above its limit.
fn is_overfull(slot: &[u64; WIDTH]) -> bool
    ensures { result ≡ overfull base slot.now }
{
    slot[ACTIVE] > SLOTS as u64
        || slot[WRITES] > MOST_WRITES as u64
        || slot[READS] > MOST_READS as u64
}

// The slot is the presented id's, and its lists can be looked at.
#[tactic(auto, unfolding(rules::specs::Verdicts::verdict, crate::specs::FineLaws::owner_tests))]
fn check_owner(slot: &[u64; WIDTH], id: TxId) -> Result<(), Refusal>
    ensures { judged result ≡ verdict (owner_tests base slot.now id.0) }
{
    let found = slot[ID];
    if is_anothers(id.0, found) {
        return Err(Refusal::NotOwner(TxId(found)));
    }
    if is_overfull(slot) {
        return Err(Refusal::Damaged);
    }
    Ok(())
}

// The store can be worked on, the slot is there, and it is the presented id's.
#[tactic(auto, using(crate::proofs::FineLaws::slot_verdict, crate::proofs::FineLaws::store_fine), unfolding(rules::specs::Verdicts::verdict))]
pub fn check_slot(
    meta: &[u64],
    rows: &[u64],
    cells: &[[u64; CELL_WORDS]],
    slots: &[[u64; WIDTH]],
    slot: u64,
    id: TxId,
) -> Result<(), Refusal>
    ensures { judged result ≡ verdict (slot_tests (lent meta.now rows.now cells.now slots.now) slot id.0) }
{
    check_store(meta, rows, cells, slots)?;
    if slot >= SLOTS as u64 {
        return Err(Refusal::BadSlot);
    }
    check_owner(&slots[slot as usize], id)
}
