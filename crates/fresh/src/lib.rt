// What an accepted creation stores, arena by arena. A longer arena keeps its rest; of a shorter one what is there is stored.
#![tactic(auto)]

ghost use Rattle.std.specs.Prelude.{◌≡◌, [], ◌∷◌, min, replicate};
ghost use Rattle.std.proofs.lemmas.List.Edits.{sets};
ghost use Rattle.words.specs.Sizes.{base};
ghost use Rattle.words.specs.Slots.{emptied};
ghost use Rattle.rules.specs.Create.{fresh_cells};
ghost use Rattle.fresh.specs.StoreLaws.{link_after};

use words::{CELL_WORDS, META_WORDS, SLOTS, WIDTH};

// How many of the wanted elements there are.
fn fewer(wanted: u64, there: usize) -> usize
    ensures { result ≡ min wanted there }
{
    wanted.min(there as u64) as usize
}

// R, N, clock 1, and cell 1 the first free one.
pub fn start(meta: &mut [u64], n: u64, r: u64)
    ensures { meta.new ≡ sets meta.old 0 (r ∷ n ∷ 1 ∷ 1 ∷ []) }
{
    let words: [u64; META_WORDS] = [r, n, 1, 1];
    let k = META_WORDS.min(meta.len());
    meta[..k].copy_from_slice(&words[..k]);
}

// Heads 0.
pub fn clear_rows(rows: &mut [u64], r: u64)
    ensures { rows.new ≡ sets rows.old 0 (replicate r 0) }
{
    let k = fewer(r, rows.len());
    rows[..k].fill(0);
}

// The cell that is free after cell c, of n cells that are handed out in order.
fn link_after(c: u64, n: u64) -> u64
    ensures { result ≡ link_after c n }
{
    if c >= n { 0 } else { c + 1 }
}

// Every cell free, each linked to the next.
pub fn free_cells(cells: &mut [[u64; CELL_WORDS]], n: u64)
    ensures { cells.new ≡ sets cells.old 0 (fresh_cells n 1) }
{
    let k = fewer(n, cells.len());
    for (i, cell) in cells[..k].iter_mut().enumerate() {
        let link = link_after(i as u64 + 1, n);
        *cell = [0, 0, 0, 0, 0, 0, 0, link];
    }
}

// Slots empty.
pub fn clear_slots(slots: &mut [[u64; WIDTH]])
    ensures { slots.new ≡ sets slots.old 0 (replicate base.slots (emptied base)) }
{
    let k = SLOTS.min(slots.len());
    // not `fill`: of an array's clones it was not proved that they are the array
    for slot in slots[..k].iter_mut() {
        *slot = [0; WIDTH];
    }
}
