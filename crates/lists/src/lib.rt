// The two lists of a slot, its writes and its read records: triples behind their count.
#![tactic(auto)]

ghost use Rattle.std.specs.Prelude.{◌≡◌, ◌+◌, ◌*◌, ◌≤◌, get_or};
ghost use Rattle.words.specs.Sizes.{base};
ghost use Rattle.words.specs.Slots as spec;
ghost use Rattle.words.specs.Slots.{slot_of};
ghost use Rattle.lists.specs.Triples.{triples, entries, records};

use words::{MOST_READS, MOST_WRITES, READS, WIDTH, WRITES};

// The triples of the list whose count stands at `place`: as many as the count says, and at most `most`.
fn triples(slot: &[u64; WIDTH], place: usize, most: usize) -> &[[u64; 3]]
    requires { place + (3 * most + 1) ≤ base.width }
    ensures { result.now ≡ triples slot.now place most }
{
    let count = slot[place].min(most as u64) as usize;
    let (all, _) = slot[place + 1..].as_chunks::<3>();
    &all[..count]
}

// The slot's writes: of each the row, its base and its new cell.
pub fn writes(slot: &[u64; WIDTH]) -> &[[u64; 3]]
    ensures { entries result.now ≡ (slot_of base slot.now).writes }
{
    triples(slot, WRITES, MOST_WRITES)
}

// The slot's read records: of each the row, the cell and its recorded xmin.
pub fn records(slot: &[u64; WIDTH]) -> &[[u64; 3]]
    ensures { records result.now ≡ (slot_of base slot.now).recs }
{
    triples(slot, READS, MOST_READS)
}

// One triple more in the list whose count stands at `place`.
pub fn push(slot: &mut [u64; WIDTH], place: usize, x: u64, y: u64, z: u64)
    requires { place + (3 * get_or slot.old place 0 + 4) ≤ base.width }
    ensures { slot.new ≡ spec.push place x y z slot.old }
{
    let count = slot[place];
    let e = place + 1 + 3 * (count as usize);
    slot[e] = x;
    slot[e + 1] = y;
    slot[e + 2] = z;
    slot[place] = count + 1;
}
