// The body of the replay programs: their input read in large pieces, a record at a time performed on the lent store, the answer lines
// written in large pieces. What is answered to a piece is written before the next is read, so that a caller behind a pipe does not wait.
#![tactic(auto)]

ghost use Rattle.std.specs.Prelude.{◌≡◌, List, ℕ, ◌+◌, ◌≤◌, length, take, drop, ◌<◌, IfOk, IfSome, OnOk, OnErr};
ghost use Rattle.std.specs.Io.KnownBytes.{Appends};
ghost use Rattle.words.specs.Sizes.{base, last_id};
ghost use Rattle.rules.specs.Memory.{Mem};
ghost use Rattle.rules.specs.Lent.{mem_in, mem_out};
ghost use Rattle.digits.specs.Numbers.{Laid};
ghost use Rattle.lines.specs.Lines.{meaning};
ghost use Rattle.answers.specs.Answers.{room};
ghost use Rattle.pieces.specs.Held.{Sane, Holds};
ghost use Rattle.pieces.specs.Laws.{between};
ghost use Rattle.pieces.specs.Texts.{records};
ghost use Rattle.perform.specs.Perform.{performed, replayed};
ghost use Rattle.perform.specs.Laws.{rooms};
ghost use Rattle.player.specs.Sizes.{Lent, lent_cells, lent_rows, longest_answer};
ghost use Rattle.player.specs.Zeroed.{zeroed};
ghost use Rattle.player.specs.Turns.{Ready, Answered, Turned, Stands, Placed};
ghost use Rattle.player.specs.Batches.{Taken, Batched, Moved};
ghost use Rattle.player.specs.Written.{Wrote, Heard, Replayed, Whole, Stopped, Failed, Broken};

use pieces::{Held, Next};
use std::io;
use std::io::{Read, Write};
use words::{CELL_WORDS, LAST_ID, META_WORDS, SLOTS, WIDTH};

// Cells and rows that a replay program lends.
pub const CELLS: usize = 512;

pub const ROWS: usize = 64;

// Bytes that are kept of a record: more than a record can have that means a call.
const RECORD: usize = 96;

// Bytes that the longest answer may take.
const ANSWER: usize = 9 + 21 * (2 + CELLS);

// Bytes of the buffers: so much is read at once at most, and so much is written.
const LARGE: usize = 65536;

// Where the work stands: the places in the piece and in the output, and what is held of a record.
#[derive(Clone, Copy)]
pub struct Place {
    pub from: usize,
    pub at: usize,
    pub held: Held,
}

// One record was answered, or the piece has no more; and where the work stands then.
#[derive(Clone, Copy)]
pub enum Turn {
    Answered(Place),
    More(Place),
}

// What a run works with beside the store: the front of a record, the reports of a vacuum, the numbers of an answer, the output.
// Of any lengths: each function says what it asks of them (`Ready`, `Lent`).
#[derive(Drop)]
struct Desk<const FRONT: usize, const REPORTS: usize, const NUMBERS: usize, const OUT: usize> {
    front: [u8; FRONT],
    reports: [[u64; 3]; REPORTS],
    numbers: [u64; NUMBERS],
    out: [u8; OUT],
    // what the type says, told to those who changed the output
    ghost kept: { length out ≡ OUT },
}

impl<const FRONT: usize, const REPORTS: usize, const NUMBERS: usize, const OUT: usize> Desk<
    FRONT,
    REPORTS,
    NUMBERS,
    OUT,
> {
    // The record at the front, performed, and its answer put into the output from a place on. Answers the place after it.
    fn answer(
        &mut self,
        count: usize,
        at: usize,
        meta: &mut [u64],
        rows: &mut [u64],
        cells: &mut [[u64; CELL_WORDS]],
        slots: &mut [[u64; WIDTH]],
    ) -> usize
        requires in_bounds { count ≤ FRONT }
        requires all_listed { REPORTS ≤ NUMBERS }
        requires has_room { at + room (2 + NUMBERS) ≤ OUT }
        ensures upper_bound { result ≤ OUT }
        ensures front_kept { self.new.front ≡ self.old.front }
        ensures laid { Laid self.old.out self.new.out at result
            (performed (rooms REPORTS NUMBERS) (meaning (take count self.old.front)) (mem_in meta rows cells slots)).line }
        ensures memory_after { mem_out meta rows cells slots
            ≡ (performed (rooms REPORTS NUMBERS) (meaning (take count self.old.front)) (mem_in meta rows cells slots)).after }
    {
        let text = &self.front[..count];
        let reports = &mut self.reports;
        let numbers = &mut self.numbers;
        let out = &mut self.out;
        perform::perform(text, meta, rows, cells, slots, reports, numbers, out, at)
    }
}

// The next record of a piece, performed.
fn play_record<const FRONT: usize, const REPORTS: usize, const NUMBERS: usize, const OUT: usize>(
    piece: &[u8],
    place: Place,
    desk: &mut Desk<FRONT, REPORTS, NUMBERS, OUT>,
    meta: &mut [u64],
    rows: &mut [u64],
    cells: &mut [[u64; CELL_WORDS]],
    slots: &mut [[u64; WIDTH]],
) -> Turn
    requires { Ready (length piece.now) FRONT REPORTS NUMBERS OUT place }
    ensures placed { Placed (length piece.now) FRONT OUT place result }
    ensures turned { (p : List ℕ) → Holds p desk.old.front place.held
        → Turned (rooms REPORTS NUMBERS) p (drop place.from piece.now) place desk.new.front (mem_in meta rows cells slots) (mem_out meta rows cells slots) desk.old.out desk.new.out result }
{
    let at = place.at;
    match pieces::next_record(&mut desk.front, place.held, piece, place.from) {
        Next::More(held) => Turn::More(Place {
            from: piece.len(),
            at,
            held,
        }),
        Next::Record { count, at: past } => {
            let next = desk.answer(count, at, meta, rows, cells, slots);
            Turn::Answered(Place {
                from: past,
                at: next,
                held: pieces::nothing(),
            })
        }
    }
}

// Records answered into the output, until the piece has no more or the longest answer has no room. Nothing is written out.
fn play_batch<const FRONT: usize, const REPORTS: usize, const NUMBERS: usize, const OUT: usize>(
    piece: &[u8],
    start: Place,
    desk: &mut Desk<FRONT, REPORTS, NUMBERS, OUT>,
    meta: &mut [u64],
    rows: &mut [u64],
    cells: &mut [[u64; CELL_WORDS]],
    slots: &mut [[u64; WIDTH]],
) -> Place
    requires lent { Lent FRONT REPORTS NUMBERS OUT }
    requires stands { (Stands (length piece.now) FRONT OUT start) × (start.at + longest_answer ≤ OUT) }
    ensures moved { Moved (length piece.now) FRONT OUT start result }
    ensures batched { (p : List ℕ) → Holds p desk.old.front start.held
        → Batched (rooms REPORTS NUMBERS) p (between piece.now start.from result.from) desk.new.front result.held (mem_in meta rows cells slots) (mem_out meta rows cells slots) desk.old.out desk.new.out start.at result.at }
{
    let mut place = start;
    let last = desk.out.len() - ANSWER;
    // not a `for`: a turn goes on by as many bytes as an answer has
    while place.at <= last {
        match play_record(piece, place, desk, meta, rows, cells, slots) {
            Turn::More(next) => return next,
            Turn::Answered(next) => place = next,
        }
    }
    place
}

// Every record that ends in the piece, batch after batch, each written out.
fn play_piece<
    W: Write,
    const FRONT: usize,
    const REPORTS: usize,
    const NUMBERS: usize,
    const OUT: usize,
>(
    output: &mut W,
    piece: &[u8],
    held: Held,
    desk: &mut Desk<FRONT, REPORTS, NUMBERS, OUT>,
    meta: &mut [u64],
    rows: &mut [u64],
    cells: &mut [[u64; CELL_WORDS]],
    slots: &mut [[u64; WIDTH]],
) -> io::Result<Held>
    requires lent { Lent FRONT REPORTS NUMBERS OUT }
    requires sane { Sane FRONT held }
    ensures still_sane { IfOk result (λ h. Sane FRONT h) }
    ensures taken { IfOk result (λ h. (p : List ℕ) → Holds p desk.old.front held → Taken (rooms REPORTS NUMBERS) p piece.now desk.new.front h (mem_in meta rows cells slots) (mem_out meta rows cells slots)) }
    ensures written { OnOk result ((p : List ℕ) → Holds p desk.old.front held → Wrote (rooms REPORTS NUMBERS) p piece.now (mem_in meta rows cells slots) (W.contents output.old) (W.contents output.new)) }
    ensures stopped { OnErr result ((p : List ℕ) → Holds p desk.old.front held → Stopped (rooms REPORTS NUMBERS) p piece.now (mem_in meta rows cells slots) (mem_out meta rows cells slots)) }
{
    let mut place = Place {
        from: 0,
        at: 0,
        held,
    };
    // nor here: a batch goes on by as many bytes as its records have
    while place.from < piece.len() {
        place = play_batch(piece, place, desk, meta, rows, cells, slots);
        let at = place.at;
        output.write_all(&desk.out[..at])?;
        place.at = 0;
    }
    Ok(place.held)
}

// What has come at the end of the input is a last record, where it is not empty. Answers the place after its answer.
fn answer_rest<const FRONT: usize, const REPORTS: usize, const NUMBERS: usize, const OUT: usize>(
    held: Held,
    desk: &mut Desk<FRONT, REPORTS, NUMBERS, OUT>,
    meta: &mut [u64],
    rows: &mut [u64],
    cells: &mut [[u64; CELL_WORDS]],
    slots: &mut [[u64; WIDTH]],
) -> usize
    requires lent { Lent FRONT REPORTS NUMBERS OUT }
    requires sane { Sane FRONT held }
    ensures upper_bound { result ≤ OUT }
    ensures front_kept { desk.new.front ≡ desk.old.front }
    ensures answered { (p : List ℕ) → Holds p desk.old.front held → Answered (rooms REPORTS NUMBERS) (records p) (mem_in meta rows cells slots) (mem_out meta rows cells slots) desk.old.out desk.new.out 0 result }
{
    let count = held.count;
    if count == 0 {
        return 0;
    }
    desk.answer(count, 0, meta, rows, cells, slots)
}

// Every record that ends in the input; what is held at its end. A proved loop has to end, and nothing says that the input does: so it
// counts its turns, to a number that no run uses up.
fn play_input<
    R: Read,
    W: Write,
    const FRONT: usize,
    const REPORTS: usize,
    const NUMBERS: usize,
    const OUT: usize,
>(
    input: &mut R,
    output: &mut W,
    desk: &mut Desk<FRONT, REPORTS, NUMBERS, OUT>,
    meta: &mut [u64],
    rows: &mut [u64],
    cells: &mut [[u64; CELL_WORDS]],
    slots: &mut [[u64; WIDTH]],
) -> io::Result<Held>
    requires { Lent FRONT REPORTS NUMBERS OUT }
    ensures sane { IfOk result (λ h. Sane FRONT h) }
    ensures heard { IfOk result (λ h. Heard (rooms REPORTS NUMBERS) desk.new.front h (mem_in meta rows cells slots) (mem_out meta rows cells slots)
        (R.remaining input.old) (R.remaining input.new) (W.contents output.old) (W.contents output.new)) }
    ensures failed { OnErr result (Failed (rooms REPORTS NUMBERS) (mem_in meta rows cells slots) (mem_out meta rows cells slots) (R.remaining input.old) (R.remaining input.new)) }
{
    let mut piece = [0u8; LARGE];
    let mut held = pieces::nothing();
    for _ in 0..LAST_ID {
        let n = input.read(&mut piece)?;
        if n == 0 {
            return Ok(held);
        }
        held = play_piece(output, &piece[..n], held, desk, meta, rows, cells, slots)?;
    }
    Ok(held)
}

// Answers every record of the input.
pub fn play<R: Read, W: Write>(
    input: &mut R,
    output: &mut W,
    meta: &mut [u64],
    rows: &mut [u64],
    cells: &mut [[u64; CELL_WORDS]],
    slots: &mut [[u64; WIDTH]],
) -> io::Result<()>
    ensures replayed { OnOk result (Replayed (rooms lent_cells lent_cells) (mem_in meta rows cells slots) (mem_out meta rows cells slots)
        (R.remaining input.old) (R.remaining input.new) (W.contents output.old) (W.contents output.new)) }
    ensures whole { OnOk result (IfSome (R.remaining input.old) (λ text. length text < last_id
        → Whole (rooms lent_cells lent_cells) text (mem_in meta rows cells slots) (mem_out meta rows cells slots) (W.contents output.old) (W.contents output.new))) }
    ensures failed { OnErr result (Broken (rooms lent_cells lent_cells) (mem_in meta rows cells slots) (mem_out meta rows cells slots) (R.remaining input.old) (R.remaining input.new)) }
{
    let mut desk = Desk {
        front: [0; RECORD],
        reports: [[0; 3]; CELLS],
        numbers: [0; CELLS],
        out: [0; LARGE],
    };
    let held = play_input(input, output, &mut desk, meta, rows, cells, slots)?;
    let end = answer_rest(held, &mut desk, meta, rows, cells, slots);
    output.write_all(&desk.out[..end])
}

// The same on a store in which every field starts at zero, and which is gone at the end.
pub fn run<R: Read, W: Write>(input: &mut R, output: &mut W) -> io::Result<()>
    ensures replayed { OnOk result ((after : Mem base) × Replayed (rooms lent_cells lent_cells) (zeroed lent_rows lent_cells) after
        (R.remaining input.old) (R.remaining input.new) (W.contents output.old) (W.contents output.new)) }
    ensures whole { OnOk result (IfSome (R.remaining input.old) (λ text. length text < last_id
        → Appends (W.contents output.old) (W.contents output.new) (replayed (rooms lent_cells lent_cells) (records text) (zeroed lent_rows lent_cells)))) }
    ensures failed { OnErr result ((after : Mem base) × Broken (rooms lent_cells lent_cells) (zeroed lent_rows lent_cells) after (R.remaining input.old) (R.remaining input.new)) }
{
    let mut meta = [0u64; META_WORDS];
    let mut rows = [0u64; ROWS];
    let mut cells = [[0u64; CELL_WORDS]; CELLS];
    let mut slots = [[0u64; WIDTH]; SLOTS];
    play(input, output, &mut meta, &mut rows, &mut cells, &mut slots)
}
