// The public calls for a host in C or Rust: numbers in, a number out, the arenas as pointers and counts. 0 is accepted, else the number is
// paper 01's for "no". Every out-parameter is written, whatever is answered: with 0 where the answer has no such number. Nothing is asked
// of the numbers or the memory.
#![tactic(auto)]

mod constants;

ghost use Rattle.std.specs.Prelude.{◌≡◌, length, get_or};
ghost use Rattle.rules.specs.Create.{create_out};
ghost use Rattle.rules.specs.Begin.{begin_out};
ghost use Rattle.rules.specs.Read.{read_out};
ghost use Rattle.rules.specs.Write.{write_out};
ghost use Rattle.rules.specs.Commit.{commit_out};
ghost use Rattle.rules.specs.Abort.{abort_out};
ghost use Rattle.rules.specs.Vacuum.{vacuum_out};
ghost use Rattle.rules.specs.Lookup.{lookup_out, lookup_all_out, front_of};
ghost use Rattle.rules.specs.Lent.{lent, mem_in, mem_out};
ghost use Rattle.records.specs.Horizon.{horizon_of, least_active};
ghost use Rattle.told.specs.Numbers.{chosen};
ghost use Rattle.vizzaluna.specs.Seen.{Made, Began, Read, Wrote, Ended, Swept, Found};
ghost use Rattle.vizzaluna.specs.Constants.{constants};

use constants::{CONSTANTS, COUNT, REPORT_WORDS};
use records::Slot;
use told::number_of;
use words::{CELL_WORDS, TxId, WIDTH};

// A new store of n cells and r rows.
#[unsafe(no_mangle)]
pub extern "C" fn vizzaluna_create(
    meta: &mut [u64],
    rows: &mut [u64],
    cells: &mut [[u64; CELL_WORDS]],
    slots: &mut [[u64; WIDTH]],
    n: u64,
    r: u64,
) -> u64
    ensures { Made (create_out (mem_in meta rows cells slots) n r) result (mem_out meta rows cells slots) }
{
    number_of(&store::create(meta, rows, cells, slots, n, r))
}

// A new transaction: its slot and its id.
#[unsafe(no_mangle)]
pub extern "C" fn vizzaluna_begin(
    meta: &mut [u64],
    rows: &[u64],
    cells: &[[u64; CELL_WORDS]],
    slots: &mut [[u64; WIDTH]],
    slot: &mut u64,
    id: &mut u64,
) -> u64
    ensures { Began (begin_out (lent meta.old rows.now cells.now slots.old))
        result slot.new id.new (lent meta.new rows.now cells.now slots.new) }
{
    let answer = store::begin(meta, rows, cells, slots);
    (*slot, *id) = match answer {
        Ok(begun) => (begun.slot, begun.id.0),
        Err(_) => (0, 0),
    };
    number_of(&answer)
}

// What the transaction sees in a row: which of the three, and the key.
#[unsafe(no_mangle)]
pub extern "C" fn vizzaluna_read(
    meta: &[u64],
    rows: &[u64],
    cells: &[[u64; CELL_WORDS]],
    slots: &mut [[u64; WIDTH]],
    slot: u64,
    id: u64,
    row: u64,
    kind: &mut u64,
    key: &mut u64,
    about: &mut u64,
) -> u64
    ensures { Read (read_out (lent meta.now rows.now cells.now slots.old) slot id row)
        result kind.new key.new about.new (lent meta.now rows.now cells.now slots.new) }
{
    let answer = store::read(meta, rows, cells, slots, slot, TxId(id), row);
    *kind = told::kind(&answer);
    *key = told::read_key(&answer);
    *about = told::about(&answer);
    number_of(&answer)
}

// A key written to a row, or none where `keyed` is 0: the cell.
#[unsafe(no_mangle)]
pub extern "C" fn vizzaluna_write(
    meta: &mut [u64],
    rows: &[u64],
    cells: &mut [[u64; CELL_WORDS]],
    slots: &mut [[u64; WIDTH]],
    slot: u64,
    id: u64,
    row: u64,
    keyed: u64,
    key: u64,
    cell: &mut u64,
    about: &mut u64,
) -> u64
    ensures { Wrote (write_out (lent meta.old rows.now cells.old slots.old) slot id row (chosen keyed key))
        result cell.new about.new (lent meta.new rows.now cells.new slots.new) }
{
    let value = told::value(keyed, key);
    let answer = store::write(meta, rows, cells, slots, slot, TxId(id), row, value);
    *cell = answer.map_or(0, |cell| cell.0);
    *about = told::about(&answer);
    number_of(&answer)
}

// The transaction's writes published together.
#[unsafe(no_mangle)]
pub extern "C" fn vizzaluna_commit(
    meta: &[u64],
    rows: &mut [u64],
    cells: &mut [[u64; CELL_WORDS]],
    slots: &mut [[u64; WIDTH]],
    slot: u64,
    id: u64,
    about: &mut u64,
) -> u64
    ensures { Ended (commit_out (lent meta.now rows.old cells.old slots.old) slot id)
        result about.new (lent meta.now rows.new cells.new slots.new) }
{
    let answer = store::commit(meta, rows, cells, slots, slot, TxId(id));
    *about = told::about(&answer);
    number_of(&answer)
}

// The transaction's writes dropped.
#[unsafe(no_mangle)]
pub extern "C" fn vizzaluna_abort(
    meta: &mut [u64],
    rows: &[u64],
    cells: &mut [[u64; CELL_WORDS]],
    slots: &mut [[u64; WIDTH]],
    slot: u64,
    id: u64,
    about: &mut u64,
) -> u64
    ensures { Ended (abort_out (lent meta.old rows.now cells.old slots.old) slot id)
        result about.new (lent meta.new rows.now cells.new slots.new) }
{
    let answer = store::abort(meta, rows, cells, slots, slot, TxId(id));
    *about = told::about(&answer);
    number_of(&answer)
}

// The row's versions that no open snapshot can reach, given back and reported: their count, and the live value.
#[unsafe(no_mangle)]
pub extern "C" fn vizzaluna_vacuum(
    meta: &mut [u64],
    rows: &[u64],
    cells: &mut [[u64; CELL_WORDS]],
    slots: &[[u64; WIDTH]],
    row: u64,
    request: u64,
    reports: &mut [[u64; REPORT_WORDS]],
    count: &mut u64,
    kind: &mut u64,
    key: &mut u64,
    about: &mut u64,
) -> u64
    ensures { Swept (vacuum_out (lent meta.old rows.now cells.old slots.now) row request (length reports.old))
        result count.new kind.new key.new about.new (lent meta.new rows.now cells.new slots.now) reports.old reports.new }
{
    let answer = store::vacuum(meta, rows, cells, slots, row, request, reports);
    let live = answer.map(|done| done.live);
    *count = answer.map_or(0, |done| done.count);
    *kind = told::kind(&live);
    *key = told::read_key(&live);
    *about = told::about(&answer);
    number_of(&answer)
}

// The rows among the candidates and the own written rows that have the key: their count, and the rows at the front of `results`.
#[unsafe(no_mangle)]
pub extern "C" fn vizzaluna_lookup(
    meta: &[u64],
    rows: &[u64],
    cells: &[[u64; CELL_WORDS]],
    slots: &mut [[u64; WIDTH]],
    slot: u64,
    id: u64,
    key: u64,
    candidates: &[u64],
    results: &mut [u64],
    count: &mut u64,
    about: &mut u64,
) -> u64
    ensures { Found (lookup_out (lent meta.now rows.now cells.now slots.old) slot id key candidates.now (length results.old))
        result count.new about.new (lent meta.now rows.now cells.now slots.new) results.old results.new }
{
    let who = TxId(id);
    let answer = store::lookup(
        meta, rows, cells, slots, slot, who, key, candidates, results,
    );
    *count = answer.unwrap_or(0);
    *about = told::about(&answer);
    number_of(&answer)
}

// The same over all rows.
#[unsafe(no_mangle)]
pub extern "C" fn vizzaluna_lookup_all(
    meta: &[u64],
    rows: &[u64],
    cells: &[[u64; CELL_WORDS]],
    slots: &mut [[u64; WIDTH]],
    slot: u64,
    id: u64,
    key: u64,
    results: &mut [u64],
    count: &mut u64,
    about: &mut u64,
) -> u64
    ensures { Found (lookup_all_out (lent meta.now rows.now cells.now slots.old) slot id key (length results.old))
        result count.new about.new (lent meta.now rows.now cells.now slots.new) results.old results.new }
{
    let answer = store::lookup_all(meta, rows, cells, slots, slot, TxId(id), key, results);
    *count = answer.unwrap_or(0);
    *about = told::about(&answer);
    number_of(&answer)
}

// What this library's constants are, one by one in the order of its header; 0 past the last.
#[unsafe(no_mangle)]
pub extern "C" fn vizzaluna_constant(which: u64) -> u64
    ensures { result ≡ get_or constants which 0 }
{
    if which >= COUNT as u64 {
        return 0;
    }
    CONSTANTS[which as usize]
}

// How many entries of a result buffer the filled front has: the count, and no more than the buffer has.
#[unsafe(no_mangle)]
pub extern "C" fn vizzaluna_front(buffer: &[u64], count: u64) -> u64
    ensures { result ≡ length (front_of buffer.now count) }
{
    store::front(buffer, count).len() as u64
}

// ---- over slots as records of two numbers

// The retention horizon: the least of the request, the clock and the snapshot xmin of all occupied slots.
#[unsafe(no_mangle)]
pub extern "C" fn vizzaluna_retention_horizon(slots: &[Slot], clock: u64, request: u64) -> u64
    ensures { result ≡ horizon_of slots.now clock request }
{
    records::retention_horizon(slots, clock, request)
}

// The least active id, or the clock where no id is below it.
#[unsafe(no_mangle)]
pub extern "C" fn vizzaluna_least_active(slots: &[Slot], clock: u64) -> u64
    ensures { result ≡ least_active slots.now clock }
{
    records::least_active(slots, clock)
}
