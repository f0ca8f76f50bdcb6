// One record of the replay program performed on lent memory, and its answer line put into a lent buffer. specs/Perform.antt says what a
// record does.
#![tactic(auto)]

ghost use Rattle.std.specs.Prelude.{◌≡◌, ℕ, ◌+◌, ◌≤◌, length, take};
ghost use Rattle.rules.specs.Lent.{lent, mem_in, mem_out};
ghost use Rattle.digits.specs.Numbers.{Laid};
ghost use Rattle.lines.specs.Lines.{meaning};
ghost use Rattle.answers.specs.Answers.{room};
ghost use Rattle.perform.specs.Perform.{cells_of, said_text, performed};
ghost use Rattle.perform.specs.Laws.{Acted, Plain, written, rooms, rooms_in};

use kinds::{Begun, Cell, Reading, Refusal, Vacuumed};
use lines::Line;
use store::{abort, commit};
use words::{CELL_WORDS, TxId, WIDTH};

// What a call came to. The cells or the rows that the last two count stand at the front of a buffer.
#[derive(Clone, Copy)]
pub enum Said {
    Other,
    Done(Result<(), Refusal>),
    Begun(Result<Begun, Refusal>),
    Wrote(Result<Cell, Refusal>),
    Looked(Result<Reading, Refusal>),
    Swept(Result<Vacuumed, Refusal>),
    Listed(Result<u64, Refusal>),
}

// The line of what a call came to; its list stands at the front of `numbers`.
fn put_said(out: &mut [u8], at: usize, said: Said, numbers: &[u64]) -> usize
    requires { at + room (2 + length numbers.now) ≤ length out.old }
    ensures { Laid out.old out.new at result (said_text said numbers.now) }
{
    match said {
        Said::Other => answers::refused(out, at, 0),
        Said::Done(Ok(())) => answers::ok(out, at, &[]),
        Said::Begun(Ok(begun)) => answers::ok(out, at, &[begun.slot, begun.id.0]),
        Said::Wrote(Ok(cell)) => answers::ok(out, at, &[cell.0]),
        Said::Looked(Ok(Reading::None)) => answers::none(out, at),
        Said::Looked(Ok(Reading::Empty)) => answers::empty(out, at),
        Said::Looked(Ok(Reading::Key(key))) => answers::key(out, at, key),
        Said::Swept(Ok(gone)) => {
            answers::counted(out, at, gone.count, store::front(numbers, gone.count))
        }
        Said::Listed(Ok(count)) => answers::ok(out, at, store::front(numbers, count)),
        Said::Done(Err(refusal))
        | Said::Begun(Err(refusal))
        | Said::Wrote(Err(refusal))
        | Said::Looked(Err(refusal))
        | Said::Swept(Err(refusal))
        | Said::Listed(Err(refusal)) => answers::refused(out, at, refusal.number()),
    }
}

// The cells of the reports, at the front of the numbers.
fn copy_cells(reports: &[[u64; 3]], numbers: &mut [u64])
    requires { length reports.now ≤ length numbers.old }
    ensures { take (length reports.now) numbers.new ≡ cells_of reports.now }
{
    for (i, report) in reports.iter().enumerate() {
        numbers[i] = report[0];
    }
}

// A vacuum whose cells are listed.
fn sweep(
    meta: &mut [u64],
    rows: &[u64],
    cells: &mut [[u64; CELL_WORDS]],
    slots: &[[u64; WIDTH]],
    row: u64,
    request: u64,
    reports: &mut [[u64; 3]],
    numbers: &mut [u64],
) -> Said
    requires { length reports.old ≤ length numbers.old }
    ensures { Acted (rooms_in reports numbers) (Line.Vacuum row request) (lent meta.old rows.now cells.old slots.now) (lent meta.new rows.now cells.new slots.now) result numbers.new }
{
    let answer = store::vacuum(meta, rows, cells, slots, row, request, reports);
    if let Ok(gone) = answer {
        copy_cells(&reports[..gone.count as usize], numbers);
    }
    Said::Swept(answer)
}

// A read.
fn look(
    meta: &[u64],
    rows: &[u64],
    cells: &[[u64; CELL_WORDS]],
    slots: &mut [[u64; WIDTH]],
    slot: u64,
    id: u64,
    row: u64,
) -> Said
    ensures { Plain (Line.Read slot id row) (lent meta.now rows.now cells.now slots.old) (lent meta.now rows.now cells.now slots.new) result }
{
    Said::Looked(store::read(meta, rows, cells, slots, slot, TxId(id), row))
}

// A write of a key, or of none.
fn put(
    meta: &mut [u64],
    rows: &[u64],
    cells: &mut [[u64; CELL_WORDS]],
    slots: &mut [[u64; WIDTH]],
    slot: u64,
    id: u64,
    row: u64,
    value: Option<u64>,
) -> Said
    ensures { Plain (written slot id row value) (lent meta.old rows.now cells.old slots.old) (lent meta.new rows.now cells.new slots.new) result }
{
    Said::Wrote(store::write(meta, rows, cells, slots, slot, TxId(id), row, value))
}

// A lookup whose rows are listed.
fn find(
    meta: &[u64],
    rows: &[u64],
    cells: &[[u64; CELL_WORDS]],
    slots: &mut [[u64; WIDTH]],
    slot: u64,
    id: u64,
    key: u64,
    numbers: &mut [u64],
) -> Said
    ensures { (k : ℕ) → Acted (rooms k (length numbers.old)) (Line.Find slot id key) (lent meta.now rows.now cells.now slots.old) (lent meta.now rows.now cells.now slots.new) result numbers.new }
{
    Said::Listed(store::lookup_all(meta, rows, cells, slots, slot, TxId(id), key, numbers))
}

// The call that a line is.
fn act(
    line: Line,
    meta: &mut [u64],
    rows: &mut [u64],
    cells: &mut [[u64; CELL_WORDS]],
    slots: &mut [[u64; WIDTH]],
    reports: &mut [[u64; 3]],
    numbers: &mut [u64],
) -> Said
    requires { length reports.old ≤ length numbers.old }
    ensures { Acted (rooms_in reports numbers) line (mem_in meta rows cells slots) (mem_out meta rows cells slots) result numbers.new }
{
    match line {
        Line::Store { n, r } => Said::Done(store::create(meta, rows, cells, slots, n, r)),
        Line::Begin => Said::Begun(store::begin(meta, rows, cells, slots)),
        Line::Read { slot, id, row } => look(meta, rows, cells, slots, slot, id, row),
        Line::Write { slot, id, row, key } => {
            put(meta, rows, cells, slots, slot, id, row, Some(key))
        }
        Line::Delete { slot, id, row } => put(meta, rows, cells, slots, slot, id, row, None),
        Line::Commit { slot, id } => Said::Done(commit(meta, rows, cells, slots, slot, TxId(id))),
        Line::Abort { slot, id } => Said::Done(abort(meta, rows, cells, slots, slot, TxId(id))),
        Line::Vacuum { row, request } => sweep(
            meta, rows, cells, slots, row, request, reports, numbers,
        ),
        Line::Find { slot, id, key } => find(meta, rows, cells, slots, slot, id, key, numbers),
        Line::Other => Said::Other,
    }
}

// A record performed: the answer line stands in `out` from a place on. Answers the place after it.
pub fn perform(
    text: &[u8],
    meta: &mut [u64],
    rows: &mut [u64],
    cells: &mut [[u64; CELL_WORDS]],
    slots: &mut [[u64; WIDTH]],
    reports: &mut [[u64; 3]],
    numbers: &mut [u64],
    out: &mut [u8],
    at: usize,
) -> usize
    requires reports_in_bounds { length reports.old ≤ length numbers.old }
    requires numbers_in_bounds { at + room (2 + length numbers.old) ≤ length out.old }
    ensures upper_bound { result ≤ length out.new }
    ensures laid { Laid out.old out.new at result
        (performed (rooms_in reports numbers) (meaning text.now) (mem_in meta rows cells slots)).line }
    ensures memory_after { mem_out meta rows cells slots
        ≡ (performed (rooms_in reports numbers) (meaning text.now) (mem_in meta rows cells slots)).after }
{
    let line = lines::parse_line(text);
    let said = act(line, meta, rows, cells, slots, reports, numbers);
    put_said(out, at, said, numbers)
}
