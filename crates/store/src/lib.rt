// The public calls of the version store. Each takes any numbers and any lent memory, and one equation says what it answers and what
// every lent word is afterwards.
//
// The four arenas are four parameters, here and in what the calls pass them on to, and not one struct: each call reads some of them alone,
// as the C header's `const` says. A struct of four `&mut` for callers that lend them all was tried: the check does not cover a field that is
// lent as `&` beside one lent as `&mut`.
#![tactic(auto)]

ghost use Rattle.std.specs.Prelude.{◌≡◌, [], length};
ghost use Rattle.std.proofs.lemmas.List.Edits.{sets};
ghost use Rattle.rules.specs.Outcome.{out};
ghost use Rattle.kinds.specs.Versions.{given};
ghost use Rattle.rules.specs.Create.{create_out};
ghost use Rattle.rules.specs.Begin.{begin_out};
ghost use Rattle.rules.specs.Read.{read_out};
ghost use Rattle.rules.specs.Write.{write_out};
ghost use Rattle.rules.specs.Commit.{commit_out};
ghost use Rattle.rules.specs.Abort.{abort_out};
ghost use Rattle.rules.specs.Vacuum.{vacuum_out};
ghost use Rattle.rules.specs.Lookup.{lookup_out, lookup_all_out, front_of};
ghost use Rattle.rules.specs.Lent.{lent, mem_in, mem_out};
ghost use Rattle.kinds.specs.Results.{done, begun, seen, wrote, vacuumed, listed};

use gate::{check_slot, check_store};
use kinds::{Begun, Cell, Reading, Refusal, Vacuumed};
use words::{CELL_WORDS, TxId, WIDTH};

// A new store of n cells and r rows: an accepted creation starts a new history.
pub fn create(
    meta: &mut [u64],
    rows: &mut [u64],
    cells: &mut [[u64; CELL_WORDS]],
    slots: &mut [[u64; WIDTH]],
    n: u64,
    r: u64,
) -> Result<(), Refusal>
    ensures { out (done result) [] (mem_out meta rows cells slots) ≡ create_out (mem_in meta rows cells slots) n r }
{
    starts::create(meta, rows, cells, slots, n, r)
}

// A new transaction: the lowest empty slot, the clock's id, the snapshot.
pub fn begin(
    meta: &mut [u64],
    rows: &[u64],
    cells: &[[u64; CELL_WORDS]],
    slots: &mut [[u64; WIDTH]],
) -> Result<Begun, Refusal>
    ensures { out (begun result) [] (lent meta.new rows.now cells.now slots.new) ≡ begin_out (lent meta.old rows.now cells.now slots.old) }
{
    check_store(meta, rows, cells, slots)?;
    starts::begin(meta, rows, cells, slots)
}

// What the transaction sees in a row: its own write, else the first visible version. A version found is recorded.
pub fn read(
    meta: &[u64],
    rows: &[u64],
    cells: &[[u64; CELL_WORDS]],
    slots: &mut [[u64; WIDTH]],
    slot: u64,
    id: TxId,
    row: u64,
) -> Result<Reading, Refusal>
    ensures { out (seen result) [] (lent meta.now rows.now cells.now slots.new) ≡ read_out (lent meta.now rows.now cells.now slots.old) slot id.0 row }
{
    check_slot(meta, rows, cells, slots, slot, id)?;
    access::read(meta, rows, cells, slots, slot, id, row)
}

// A key, or none to delete, written to a row: others see it once it is committed.
pub fn write(
    meta: &mut [u64],
    rows: &[u64],
    cells: &mut [[u64; CELL_WORDS]],
    slots: &mut [[u64; WIDTH]],
    slot: u64,
    id: TxId,
    row: u64,
    value: Option<u64>,
) -> Result<Cell, Refusal>
    ensures { out (wrote result) [] (lent meta.new rows.now cells.new slots.new) ≡ write_out (lent meta.old rows.now cells.old slots.old) slot id.0 row (given value) }
{
    check_slot(meta, rows, cells, slots, slot, id)?;
    access::write(meta, rows, cells, slots, slot, id, row, value)
}

// The transaction's writes published together, or a refusal that leaves it open. A transaction without writes just ends.
pub fn commit(
    meta: &[u64],
    rows: &mut [u64],
    cells: &mut [[u64; CELL_WORDS]],
    slots: &mut [[u64; WIDTH]],
    slot: u64,
    id: TxId,
) -> Result<(), Refusal>
    ensures { out (done result) [] (lent meta.now rows.new cells.new slots.new) ≡ commit_out (lent meta.now rows.old cells.old slots.old) slot id.0 }
{
    check_slot(meta, rows, cells, slots, slot, id)?;
    ends::commit(meta, rows, cells, slots, slot, id)
}

// The transaction's writes dropped.
pub fn abort(
    meta: &mut [u64],
    rows: &[u64],
    cells: &mut [[u64; CELL_WORDS]],
    slots: &mut [[u64; WIDTH]],
    slot: u64,
    id: TxId,
) -> Result<(), Refusal>
    ensures { out (done result) [] (lent meta.new rows.now cells.new slots.new) ≡ abort_out (lent meta.old rows.now cells.old slots.old) slot id.0 }
{
    check_slot(meta, rows, cells, slots, slot, id)?;
    ends::abort(meta, rows, cells, slots, slot, id)
}

// The row's versions that no open snapshot can reach any more, unlinked, reported newest first, and given back. A report is an entry of
// three words: the cell, whether it had a key, the key.
pub fn vacuum(
    meta: &mut [u64],
    rows: &[u64],
    cells: &mut [[u64; CELL_WORDS]],
    slots: &[[u64; WIDTH]],
    row: u64,
    request: u64,
    reports: &mut [[u64; 3]],
) -> Result<Vacuumed, Refusal>
    ensures outcome { out (vacuumed result) (vacuum_out (lent meta.old rows.now cells.old slots.now) row request (length reports.old)).front (lent meta.new rows.now cells.new slots.now)
        ≡ vacuum_out (lent meta.old rows.now cells.old slots.now) row request (length reports.old) }
    ensures reports_after { reports.new
        ≡ sets reports.old 0 (vacuum_out (lent meta.old rows.now cells.old slots.now) row request (length reports.old)).front }
{
    check_store(meta, rows, cells, slots)?;
    vacuum::vacuum(meta, rows, cells, slots, row, request, reports)
}

// The rows among the candidates and the own written rows that have the key, ascending, at the front of `results`.
pub fn lookup(
    meta: &[u64],
    rows: &[u64],
    cells: &[[u64; CELL_WORDS]],
    slots: &mut [[u64; WIDTH]],
    slot: u64,
    id: TxId,
    key: u64,
    candidates: &[u64],
    results: &mut [u64],
) -> Result<u64, Refusal>
    ensures outcome { out (listed result) (lookup_out (lent meta.now rows.now cells.now slots.old) slot id.0 key candidates.now (length results.old)).front (lent meta.now rows.now cells.now slots.new)
        ≡ lookup_out (lent meta.now rows.now cells.now slots.old) slot id.0 key candidates.now (length results.old) }
    ensures results_after { results.new
        ≡ sets results.old 0 (lookup_out (lent meta.now rows.now cells.now slots.old) slot id.0 key candidates.now (length results.old)).front }
{
    check_slot(meta, rows, cells, slots, slot, id)?;
    lookup::lookup(meta, rows, cells, slots, slot, id, key, candidates, results)
}

// The same over all rows.
pub fn lookup_all(
    meta: &[u64],
    rows: &[u64],
    cells: &[[u64; CELL_WORDS]],
    slots: &mut [[u64; WIDTH]],
    slot: u64,
    id: TxId,
    key: u64,
    results: &mut [u64],
) -> Result<u64, Refusal>
    ensures outcome { out (listed result) (lookup_all_out (lent meta.now rows.now cells.now slots.old) slot id.0 key (length results.old)).front (lent meta.now rows.now cells.now slots.new)
        ≡ lookup_all_out (lent meta.now rows.now cells.now slots.old) slot id.0 key (length results.old) }
    ensures results_after { results.new
        ≡ sets results.old 0 (lookup_all_out (lent meta.now rows.now cells.now slots.old) slot id.0 key (length results.old)).front }
{
    check_slot(meta, rows, cells, slots, slot, id)?;
    lookup::lookup_all(meta, rows, cells, slots, slot, id, key, results)
}

// The filled front of a result buffer, as a part of it. A count past the end gives the whole buffer.
pub fn front<'a>(buffer: &'a [u64], count: u64) -> &'a [u64]
    ensures { result.now ≡ front_of buffer.now count }
{
    lookup::front(buffer, count)
}
