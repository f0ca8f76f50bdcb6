// Why a call is refused: one kind for each of paper 01's numbers for "no", with what it returns where it returns something.
ghost use Rattle.std.specs.Prelude.{◌≡◌};
ghost use Rattle.kinds.specs.Results.{number, about};

use words::{
    BAD_ROW, BAD_SIZE, BAD_SLOT, CHAIN_TOO_LONG, CLOCK_SPENT, DAMAGED, NO_FREE_SLOT, NO_ROOM,
    NOT_OWNER, READ_CONFLICT, READ_SET_FULL, RESULT_FULL, ROW_LOCKED, TxId, WRITE_CONFLICT,
    WRITE_SET_FULL,
};

#[derive(Clone, Copy, PartialEq, Eq)]
pub enum Refusal {
    BadSize,
    ClockSpent,
    NoFreeSlot,
    BadSlot,
    // with the id that the slot has
    NotOwner(TxId),
    // with the row, here and below
    BadRow(u64),
    RowLocked(u64),
    WriteConflict(u64),
    ReadConflict(u64),
    ChainTooLong(u64),
    NoRoom,
    WriteSetFull,
    ReadSetFull(u64),
    ResultFull,
    Damaged,
}

impl Refusal {
    // Paper 01's number.
    pub fn number(self) -> u64
        ensures { result ≡ number self }
    {
        match self {
            Refusal::BadSize => BAD_SIZE,
            Refusal::ClockSpent => CLOCK_SPENT,
            Refusal::NoFreeSlot => NO_FREE_SLOT,
            Refusal::BadSlot => BAD_SLOT,
            Refusal::NotOwner(_) => NOT_OWNER,
            Refusal::BadRow(_) => BAD_ROW,
            Refusal::RowLocked(_) => ROW_LOCKED,
            Refusal::WriteConflict(_) => WRITE_CONFLICT,
            Refusal::ReadConflict(_) => READ_CONFLICT,
            Refusal::ChainTooLong(_) => CHAIN_TOO_LONG,
            Refusal::NoRoom => NO_ROOM,
            Refusal::WriteSetFull => WRITE_SET_FULL,
            Refusal::ReadSetFull(_) => READ_SET_FULL,
            Refusal::ResultFull => RESULT_FULL,
            Refusal::Damaged => DAMAGED,
        }
    }

    // What it is about: paper 01's column "Returns", the row or the id; 0 where it returns nothing.
    pub fn about(self) -> u64
        ensures { result ≡ about self }
    {
        match self {
            Refusal::NotOwner(id) => id.0,
            Refusal::BadRow(row)
            | Refusal::RowLocked(row)
            | Refusal::WriteConflict(row)
            | Refusal::ReadConflict(row)
            | Refusal::ChainTooLong(row)
            | Refusal::ReadSetFull(row) => row,
            Refusal::BadSize
            | Refusal::ClockSpent
            | Refusal::NoFreeSlot
            | Refusal::BadSlot
            | Refusal::NoRoom
            | Refusal::WriteSetFull
            | Refusal::ResultFull
            | Refusal::Damaged => 0,
        }
    }
}
