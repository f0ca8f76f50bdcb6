// Sizes, the places of words, the numbers for "no", and what a slot's words say of an id.
#![tactic(auto)]

ghost use Rattle.std.specs.Prelude.{◌≡◌, min};
ghost use Rattle.words.specs.Sizes.{base};
ghost use Rattle.words.specs.Lists.{has};
ghost use Rattle.words.specs.Slots.{slot_of};

// ---- sizes: paper 01's numbers. `size_table` ties each to its name in specs/.

// Transactions open at once.
pub const SLOTS: usize = 16;

// Versions that one read looks at.
pub const WALK: usize = 64;

// Entries of a write set, and records of a read set.
pub const MOST_WRITES: usize = 32;

pub const MOST_READS: usize = 128;

// The largest R and the largest N.
pub const MOST_ROWS: usize = 256;

pub const MOST_CELLS: usize = 4096;

// Words of a slot. 502 are in use; a multiple of 512 would put the ids of all slots in one set of the cache.
pub const WIDTH: usize = 504;

// Words of a cell: xmin, xmax, next, keyed, key, locked, owner, free link.
pub const CELL_WORDS: usize = 8;

// The last id and the largest number.
pub const LAST_ID: u64 = 18446744073709551615;

// ---- places of words

// Of meta: R, N, the clock, the first free cell.
pub const ROWS: usize = 0;

pub const CELLS: usize = 1;

pub const CLOCK: usize = 2;

pub const FREE: usize = 3;

pub const META_WORDS: usize = 4;

// Of a slot: the id, the snapshot's xmin and xmax, then three lists, the count of each before it.
pub const ID: usize = 0;

pub const LOW: usize = 1;

pub const TOP: usize = 2;

pub const ACTIVE: usize = 3;

pub const WRITES: usize = ACTIVE + 1 + SLOTS;

pub const READS: usize = WRITES + 1 + 3 * MOST_WRITES;

#[derive(Clone, Copy)]
pub struct Sizes {
    pub slots: usize,
    pub walk: usize,
    pub writes: usize,
    pub reads: usize,
    pub rows: usize,
    pub cells: usize,
    pub width: usize,
}

// The code's sizes are those of the rules.
pub fn size_table() -> Sizes
    ensures { (result.slots ≡ base.slots) × (result.walk ≡ base.walk) × (result.writes ≡ base.writes) × (result.reads ≡ base.reads)
        × (result.rows ≡ base.rows) × (result.cells ≡ base.cells) × (result.width ≡ base.width) }
{
    Sizes {
        slots: SLOTS,
        walk: WALK,
        writes: MOST_WRITES,
        reads: MOST_READS,
        rows: MOST_ROWS,
        cells: MOST_CELLS,
        width: WIDTH,
    }
}

// ---- paper 01's numbers for "no", as the rules name them and the C header has them; in calls they are the enum `kinds::Refusal`

pub const BAD_SIZE: u64 = 1;

pub const CLOCK_SPENT: u64 = 2;

pub const NO_FREE_SLOT: u64 = 3;

pub const BAD_SLOT: u64 = 4;

pub const NOT_OWNER: u64 = 5;

pub const BAD_ROW: u64 = 6;

pub const ROW_LOCKED: u64 = 7;

pub const WRITE_CONFLICT: u64 = 8;

pub const READ_CONFLICT: u64 = 9;

pub const CHAIN_TOO_LONG: u64 = 10;

pub const NO_ROOM: u64 = 11;

pub const WRITE_SET_FULL: u64 = 12;

pub const READ_SET_FULL: u64 = 13;

pub const RESULT_FULL: u64 = 14;

pub const DAMAGED: u64 = 15;

// ---- ids

// A transaction's id.
#[derive(Clone, Copy, PartialEq, Eq)]
pub struct TxId(pub u64);

// The slot's active ids: as many as their count says, and at most SLOTS.
pub fn actives(slot: &[u64; WIDTH]) -> &[u64]
    ensures { result.now ≡ (slot_of base slot.now).active }
{
    let count = slot[ACTIVE].min(SLOTS as u64) as usize;
    &slot[ACTIVE + 1..][..count]
}

// Is x among the slot's active ids?
pub fn is_active(slot: &[u64; WIDTH], x: TxId) -> bool
    ensures { result ≡ has x.0 (slot_of base slot.now).active }
{
    actives(slot).contains(&x.0)
}
