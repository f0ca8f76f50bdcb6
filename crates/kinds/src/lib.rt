// The kinds of the version store, and what belongs to a version. What the calls mean stands in `rules`.
#![tactic(auto)]

mod refusals;

ghost use Rattle.std.specs.Prelude.{◌≡◌};
ghost use Rattle.words.specs.Sizes.{base};
ghost use Rattle.words.specs.Slots.{slot_of};
ghost use Rattle.kinds.specs.Results.{reading};
ghost use Rattle.kinds.specs.Versions.{value_of, with_xmax, with_next, with_value, locked_for, unlocked, new_version, locked_by_other, given, reclaimable};
ghost use Rattle.kinds.specs.Visible.{creator_visible, visible};

pub use refusals::Refusal;
use words::{ID, TOP, TxId, WIDTH, is_active};

// ---- kinds

// A cell's number. A transaction's id is of another kind, so the two cannot be mixed.
#[derive(Clone, Copy, PartialEq, Eq)]
pub struct Cell(pub u64);

// The two flags are words as they lie, nonzero is set: a version that is read and put back keeps a lent 7.
#[derive(Clone, Copy)]
pub struct Version {
    pub xmin: TxId,
    pub xmax: TxId,
    pub next: Cell,
    pub keyed: u64,
    pub key: u64,
    pub locked: u64,
    pub owner: TxId,
}

// What a read finds in a row: no version, a version without a key, a key.
#[derive(Clone, Copy, PartialEq, Eq)]
pub enum Reading {
    None,
    Empty,
    Key(u64),
}

// A transaction begun: its slot and its id.
#[derive(Clone, Copy, PartialEq, Eq)]
pub struct Begun {
    pub slot: u64,
    pub id: TxId,
}

// A row vacuumed: how many versions are gone, and the live value.
#[derive(Clone, Copy, PartialEq, Eq)]
pub struct Vacuumed {
    pub count: u64,
    pub live: Reading,
}

// ---- visibility

pub fn is_creator_visible(slot: &[u64; WIDTH], x: TxId) -> bool
    ensures { result ≡ creator_visible (slot_of base slot.now) x.0 }
{
    x.0 != 0 && (x.0 == slot[ID] || x.0 < slot[TOP] && !is_active(slot, x))
}

impl Version {
    pub const EMPTY: Version = Version {
        xmin: TxId(0),
        xmax: TxId(0),
        next: Cell(0),
        keyed: 0,
        key: 0,
        locked: 0,
        owner: TxId(0),
    };

    // 000's `new_row`: nothing is set but these.
    pub fn new(value: Option<u64>, xmin: TxId, next: Cell) -> Version
        ensures { result ≡ new_version (given value) xmin.0 next.0 }
    {
        Version {
            xmin,
            next,
            ..Version::EMPTY.with_value(value)
        }
    }

    // The reader is a slot, as it lies in its arena.
    pub fn is_visible(self, slot: &[u64; WIDTH]) -> bool
        ensures { result ≡ visible (slot_of base slot.now) self }
    {
        is_creator_visible(slot, self.xmin)
            && !(self.xmax.0 != 0 && is_creator_visible(slot, self.xmax))
    }

    // What the row holds where this is its version: no key, or a key.
    pub fn reading(self) -> Reading
        ensures { reading result ≡ value_of self }
    {
        if self.keyed == 0 {
            return Reading::Empty;
        }
        Reading::Key(self.key)
    }

    pub fn is_locked_by_other(self, id: TxId) -> bool
        ensures { result ≡ locked_by_other self id.0 }
    {
        self.locked != 0 && self.owner != id
    }

    pub fn is_reclaimable(self, horizon: u64) -> bool
        ensures { result ≡ reclaimable horizon self }
    {
        self.xmax.0 != 0 && self.xmax.0 < horizon && self.locked == 0
    }

    pub fn with_xmax(mut self, id: TxId) -> Version
        ensures { result ≡ with_xmax self id.0 }
    {
        self.xmax = id;
        self
    }

    pub fn with_value(mut self, value: Option<u64>) -> Version
        ensures { result ≡ with_value self (given value) }
    {
        (self.keyed, self.key) = match value {
            None => (0, 0),
            Some(k) => (1, k),
        };
        self
    }

    pub fn with_next(mut self, next: Cell) -> Version
        ensures { result ≡ with_next self next.0 }
    {
        self.next = next;
        self
    }

    pub fn locked_for(mut self, id: TxId) -> Version
        ensures { result ≡ locked_for self id.0 }
    {
        self.locked = 1;
        self.owner = id;
        self
    }

    pub fn unlocked(mut self) -> Version
        ensures { result ≡ unlocked self }
    {
        self.locked = 0;
        self.owner = TxId(0);
        self
    }
}
