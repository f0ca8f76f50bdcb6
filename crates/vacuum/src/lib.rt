// The vacuum of a row, on a store that was tested: the chain is judged first, and nothing is stored before every test has passed. Then
// the reclaimable versions are reported, the chain is linked without them, and the reported cells are given back.
#![tactic(auto)]

ghost use Rattle.std.specs.Prelude.{List, ◌∷◌, ◌≢◌, ◌≡◌, ℕ, ◌≤◌, length, take};
ghost use Rattle.std.proofs.lemmas.List.Edits.{sets};
ghost use Rattle.kinds.specs.Answer.{Answer};
ghost use Rattle.kinds.specs.Results.{reading, vacuumed};
ghost use Rattle.words.specs.Sizes.{base, meta_words};
ghost use Rattle.words.specs.Lists.{fold};
ghost use Rattle.kinds.specs.Versions.{value_of, version_at};
ghost use Rattle.rules.specs.Memory.{mem};
ghost use Rattle.rules.specs.Snapshot.{horizon_of};
ghost use Rattle.rules.specs.Outcome.{out};
ghost use Rattle.rules.specs.Abort.{give_back};
ghost use Rattle.rules.specs.Vacuum as rule;
ghost use Rattle.rules.specs.Lent.{lent};
ghost use Rattle.gate.specs.FineLaws.{StoreFine};
ghost use Rattle.vacuum.specs.Sweeping.{Sweepable, gone, stays};
ghost use Rattle.vacuum.specs.Rest.{vacuum_rest};

use kinds::{Cell, Reading, Refusal, Vacuumed};
use words::{CELL_WORDS, CELLS, CLOCK, ROWS, WIDTH};

// A row whose head is 0 has no version.
const NO_VERSION: Vacuumed = Vacuumed {
    count: 0,
    live: Reading::None,
};

// The horizon, where a version stands behind the head: nothing else asks for it, and it looks at every slot.
fn horizon_behind(slots: &[[u64; WIDTH]], clock: u64, request: u64, next: Cell) -> u64
    ensures { next.0 ≢ 0 → result ≡ horizon_of request clock (take base.slots slots.now) }
{
    if next.0 == 0 {
        return 0;
    }
    slots::horizon(slots, clock, request)
}

// The changes. Only the head's value is read before them and told after them.
fn sweep(
    meta: &mut [u64],
    cells: &mut [[u64; CELL_WORDS]],
    reports: &mut [[u64; 3]],
    horizon: u64,
    head: Cell,
    count: u64,
) -> Vacuumed
    requires meta_words_in_bounds { meta_words ≤ length meta.old }
    requires sweepable { Sweepable cells.old horizon head.0 count (length reports.old) }
    ensures value { vacuumed (Ok result) ≡ Answer.Vacuumed count (value_of (version_at cells.old head.0)) }
    ensures reports_after { reports.new ≡ sets reports.old 0 (rule.reports cells.old (gone cells.old horizon head.0)) }
    ensures swept { (r : List ℕ) (s : List (List ℕ)) → mem {z = base} meta.new r cells.new s
        ≡ fold give_back (gone cells.old horizon head.0)
        (mem meta.old r (rule.relink (head.0 ∷ stays cells.old horizon head.0) cells.old) s) }
{
    let v = arena::version_at(cells, head);
    let live = v.reading();
    chains::report_dead(cells, horizon, v.next, reports);
    chains::relink(cells, horizon, head, v.next);
    chains::give_all(meta, cells, &reports[..count as usize]);
    Vacuumed { count, live }
}

// The row is tested, its chain judged, the reports counted against their buffer; only then is anything changed.
pub fn vacuum(
    meta: &mut [u64],
    rows: &[u64],
    cells: &mut [[u64; CELL_WORDS]],
    slots: &[[u64; WIDTH]],
    row: u64,
    request: u64,
    reports: &mut [[u64; 3]],
) -> Result<Vacuumed, Refusal>
    requires { StoreFine (mem {z = base} meta.old rows.now cells.old slots.now) }
    ensures outcome { out (vacuumed result) (vacuum_rest (lent meta.old rows.now cells.old slots.now) row request (length reports.old)).front (lent meta.new rows.now cells.new slots.now)
        ≡ vacuum_rest (lent meta.old rows.now cells.old slots.now) row request (length reports.old) }
    ensures reports_after { reports.new
        ≡ sets reports.old 0 (vacuum_rest (lent meta.old rows.now cells.old slots.now) row request (length reports.old)).front }
{
    if meta[ROWS] <= row {
        return Err(Refusal::BadRow(row));
    }
    let n = meta[CELLS];
    let head = Cell(rows[row as usize]);
    if head.0 == 0 {
        return Ok(NO_VERSION);
    }
    if n < head.0 {
        return Err(Refusal::Damaged);
    }
    let next = arena::version_at(cells, head).next;
    let horizon = horizon_behind(slots, meta[CLOCK], request, next);
    let count = chains::count_dead(cells, n, horizon, next, n - 1)?;
    if (reports.len() as u64) < count {
        return Err(Refusal::ResultFull);
    }
    Ok(sweep(meta, cells, reports, horizon, head, count))
}
