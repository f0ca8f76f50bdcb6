// The numbers that a host's header repeats, in the header's order, so that a host can compare them.
use told::{A_KEY, NO_KEY, NO_VERSION};

// Words of a vacuum's report: the cell, whether it had a key, the key.
pub const REPORT_WORDS: usize = 3;

pub const COUNT: usize = 39;

pub const CONSTANTS: [u64; COUNT] = [
    words::SLOTS as u64,
    words::WALK as u64,
    words::MOST_WRITES as u64,
    words::MOST_READS as u64,
    words::MOST_ROWS as u64,
    words::MOST_CELLS as u64,
    words::LAST_ID,
    words::META_WORDS as u64,
    words::CELL_WORDS as u64,
    words::WIDTH as u64,
    REPORT_WORDS as u64,
    words::ROWS as u64,
    words::CELLS as u64,
    words::CLOCK as u64,
    words::FREE as u64,
    words::ID as u64,
    words::LOW as u64,
    words::TOP as u64,
    words::ACTIVE as u64,
    words::WRITES as u64,
    words::READS as u64,
    words::BAD_SIZE,
    words::CLOCK_SPENT,
    words::NO_FREE_SLOT,
    words::BAD_SLOT,
    words::NOT_OWNER,
    words::BAD_ROW,
    words::ROW_LOCKED,
    words::WRITE_CONFLICT,
    words::READ_CONFLICT,
    words::CHAIN_TOO_LONG,
    words::NO_ROOM,
    words::WRITE_SET_FULL,
    words::READ_SET_FULL,
    words::RESULT_FULL,
    words::DAMAGED,
    NO_VERSION,
    NO_KEY,
    A_KEY,
];
