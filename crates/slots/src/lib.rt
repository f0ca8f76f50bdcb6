// The snapshot rule of Begin and the horizon, over the arena of slots. An arena may be of any length: the first SLOTS entries are the
// slots, what lies beyond them counts for nothing.
#![tactic(auto)]

ghost use Rattle.std.specs.Prelude.{◌≡◌, ◌<◌, take};
ghost use Rattle.words.specs.Sizes.{base};
ghost use Rattle.words.specs.Sizes as words;
ghost use Rattle.words.specs.Lists.{least, greatest};
ghost use Rattle.rules.specs.Snapshot.{occupied, snap_low, snap_top, horizon_of};
ghost use Rattle.slots.specs.OccupiedLaws.{IsLowestEmpty, top_over};

use words::{ID, LAST_ID, LOW, SLOTS, WIDTH};

// The snapshot's xmin and xmax.
#[derive(Clone, Copy)]
pub struct Snapshot {
    pub low: u64,
    pub top: u64,
}

// The lent slots that count.
pub fn counted(slots: &[[u64; WIDTH]]) -> &[[u64; WIDTH]]
    ensures { result.now ≡ take base.slots slots.now }
{
    &slots[..slots.len().min(SLOTS)]
}

// The least of a word over the occupied slots, and of a ceiling.
fn least_word(slots: &[[u64; WIDTH]], word: usize, ceiling: u64) -> u64
    requires { word < base.width }
    ensures { result ≡ least ceiling (occupied word (take base.slots slots.now)) }
{
    counted(slots).iter().fold(
        ceiling,
        |least, slot| if slot[ID] == 0 {
            least
        } else {
            least.min(slot[word])
        },
    )
}

// The lowest empty slot, where there is one.
pub fn lowest_empty(slots: &[[u64; WIDTH]]) -> Option<usize>
    ensures { IsLowestEmpty (take base.slots slots.now) result }
{
    counted(slots).iter().position(|slot| slot[ID] == 0)
}

// The id of an empty slot is 0, and raises nothing.
fn greatest_id(slots: &[[u64; WIDTH]]) -> u64
    ensures { result ≡ greatest (occupied words.ID (take base.slots slots.now)) }
{
    counted(slots)
        .iter()
        .map(|slot| slot[ID])
        .max()
        .unwrap_or(0)
}

// The snapshot's xmax: past every active id, and at least the clock. An id is never 0, so a greatest of 0 is no active slot.
fn top_over(greatest: u64, clock: u64) -> u64
    ensures { result ≡ top_over greatest clock }
{
    if greatest == 0 {
        clock
    } else {
        clock.max(greatest.saturating_add(1))
    }
}

pub fn snapshot_of(slots: &[[u64; WIDTH]], clock: u64) -> Snapshot
    ensures { (result.low ≡ snap_low clock (occupied words.ID (take base.slots slots.now)))
        × (result.top ≡ snap_top clock (occupied words.ID (take base.slots slots.now))) }
{
    let low = least_word(slots, ID, clock);
    let top = top_over(greatest_id(slots), clock);
    Snapshot { low, top }
}

// The least of the request, the clock and the snapshot xmin of all occupied slots.
#[tactic(auto, unfolding(rules::specs::Snapshot::horizon_of))]
pub fn horizon(slots: &[[u64; WIDTH]], clock: u64, request: u64) -> u64
    ensures { result ≡ horizon_of request clock (take base.slots slots.now) }
{
    least_word(slots, LOW, request.min(clock))
}
