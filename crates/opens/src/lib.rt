// A slot opened for a transaction: the active ids gathered from the arena, and the slot's first words stored.
#![tactic(auto)]

ghost use Rattle.std.specs.Prelude.{◌≡◌, ◌<◌, ◌≤◌, length, take};
ghost use Rattle.words.specs.Sizes.{base, last_id};
ghost use Rattle.words.specs.Sizes as words;
ghost use Rattle.words.specs.Slots.{opened};
ghost use Rattle.opens.specs.Gathered.{Gathered};
ghost use Rattle.opens.specs.OpenedAt.{opened_at};

use slots::Snapshot;
use words::{ACTIVE, ID, LOW, READS, SLOTS, TOP, TxId, WIDTH, WRITES};

// The ids of the occupied slots, in slot order, at the front of `ids`; how many they are. A count and no slice of `ids`: of a buffer that is
// lent on in the answer no ordinary `ensures` could say what it holds afterwards.
pub fn gather(slots: &[[u64; WIDTH]], ids: &mut [u64]) -> usize
    requires { base.slots ≤ length ids.old }
    ensures { Gathered slots.now ids.new result }
{
    let mut k = 0;
    for slot in slots::counted(slots) {
        // 0 is no id, and its place is taken again
        ids[k] = slot[ID];
        k += usize::from(slot[ID] != 0);
    }
    k
}

// The id, the snapshot, no writes, no records. The words past the counts stay as they lie.
pub fn open_slot(slot: &mut [u64; WIDTH], id: TxId, snapshot: Snapshot, ids: &[u64])
    requires { length ids.now ≤ base.slots }
    ensures { slot.new ≡ opened base slot.old id.0 snapshot.low snapshot.top ids.now }
{
    slot[ID] = id.0;
    slot[LOW] = snapshot.low;
    slot[TOP] = snapshot.top;
    slot[ACTIVE] = ids.len() as u64;
    slot[ACTIVE + 1..ACTIVE + 1 + ids.len()].copy_from_slice(ids);
    slot[WRITES] = 0;
    slot[READS] = 0;
}

// Slot s opened for a transaction whose id was drawn: its own id is among the active ones, so it is stored before they are gathered.
pub fn occupy(slots: &mut [[u64; WIDTH]], s: usize, id: u64)
    requires { (s < length slots.old) × (id < last_id) }
    ensures { slots.new ≡ opened_at slots.old s id }
{
    slots[s][ID] = id;
    let snapshot = slots::snapshot_of(slots, id + 1);
    let mut ids = [0; SLOTS];
    let count = gather(slots, &mut ids);
    open_slot(&mut slots[s], TxId(id), snapshot, &ids[..count]);
}
