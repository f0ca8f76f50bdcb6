// The loops of a row's vacuum: the chain behind the head is judged, its reclaimable versions are reported, what stays is linked anew,
// and the reported cells are given back. The judge looks at any memory; the others ask for what its verdict has shown.
#![tactic(auto)]

ghost use Rattle.std.specs.Prelude.{true, cond, List, [], ◌∷◌, ◌≡◌, ℕ, ◌+◌, ◌≤◌, ◌<◌, length, set};
ghost use mir.Val.{bool_byte};
ghost use Rattle.std.proofs.lemmas.List.Edits.{sets};
ghost use Rattle.words.specs.Sizes.{base, meta_words};
ghost use Rattle.words.specs.Lists.{keep, fold};
ghost use Rattle.kinds.specs.Versions.{with_next, version_at, put_version};
ghost use Rattle.rules.specs.Memory.{mem};
ghost use Rattle.rules.specs.Chain.{chain};
ghost use Rattle.rules.specs.Abort.{give_back};
ghost use Rattle.kinds.specs.Versions.{reclaimable};
ghost use Rattle.rules.specs.Vacuum as rule;
ghost use Rattle.rules.specs.Theory.CellLaws.{HasCell};
ghost use Rattle.rules.specs.Theory.Bridge.{AllCells};
ghost use Rattle.rules.specs.Theory.Counting.{cnt};
ghost use Rattle.chains.specs.Lines.{Ends, line};
ghost use Rattle.chains.specs.Tallies.{dead, alive, tally};
ghost use Rattle.chains.specs.Fronts.{fronts};

use kinds::{Cell, Refusal, Version};
use words::CELL_WORDS;

// Walks from a cell on, `most` versions at the most, and counts the reclaimable ones. A chain that is longer, as a cycle is, or broken
// is damage.
pub fn count_dead(
    cells: &[[u64; CELL_WORDS]],
    n: u64,
    horizon: u64,
    first: Cell,
    most: u64,
) -> Result<u64, Refusal>
    ensures { result ≡ tally (dead cells.now horizon) 0 (chain n (version_at cells.now) most first.0) }
{
    let mut c = first;
    let mut count: u64 = 0;
    for _ in 0..most {
        if c.0 == 0 {
            return Ok(count);
        }
        if n < c.0 {
            return Err(Refusal::Damaged);
        }
        let v = arena::version_at(cells, c);
        count += v.is_reclaimable(horizon) as u64;
        c = v.next;
    }
    if c.0 == 0 {
        Ok(count)
    } else {
        Err(Refusal::Damaged)
    }
}

// A version's report at place i, where it is reclaimable; the place of the next.
fn report(reports: &mut [[u64; 3]], i: usize, v: Version, c: Cell, horizon: u64) -> usize
    requires { reclaimable horizon v ≡ true → i < length reports.old }
    ensures value { result ≡ i + bool_byte (reclaimable horizon v) }
    ensures reports_after { reports.new ≡ cond (reclaimable horizon v) (set reports.old i (c.0 ∷ v.keyed ∷ v.key ∷ [])) reports.old }
{
    if !v.is_reclaimable(horizon) {
        return i;
    }
    reports[i] = [c.0, v.keyed, v.key];
    i + 1
}

// The reports of the reclaimable versions, in chain order, at the front of the buffer.
pub fn report_dead(cells: &[[u64; CELL_WORDS]], horizon: u64, first: Cell, reports: &mut [[u64; 3]])
    requires ends { Ends cells.now first.0 }
    requires first_in_bounds { length (keep (dead cells.now horizon) (line cells.now first.0)) ≤ length reports.old }
    ensures { reports.new ≡ sets reports.old 0
        (rule.reports cells.now (keep (dead cells.now horizon) (line cells.now first.0))) }
{
    let mut c = first;
    let mut i = 0;
    // Not a `for`: no number says where the chain ends, its pointers do.
    while c.0 != 0 {
        let v = arena::version_at(cells, c);
        i = report(reports, i, v, c, horizon);
        c = v.next;
    }
}

// A version's next, the rest of it kept.
fn link(cells: &mut [[u64; CELL_WORDS]], c: Cell, next: Cell)
    requires { HasCell cells.old c.0 }
    ensures { cells.new ≡ put_version cells.old c.0 (with_next (version_at cells.old c.0) next.0) }
{
    let v = arena::version_at(cells, c);
    arena::put_version(cells, c, v.with_next(next));
}

// A version that stays follows the one that stayed before it; the one that stayed last.
fn link_kept(cells: &mut [[u64; CELL_WORDS]], v: Version, horizon: u64, last: Cell, c: Cell) -> Cell
    requires { HasCell cells.old last.0 }
    ensures value { result ≡ cond (reclaimable horizon v) last c }
    ensures cells_after { cells.new ≡ cond (reclaimable horizon v) cells.old
        (put_version cells.old last.0 (with_next (version_at cells.old last.0) c.0)) }
{
    if v.is_reclaimable(horizon) {
        return last;
    }
    link(cells, last, c);
    c
}

// The head and what stays behind it, linked one to the next.
pub fn relink(cells: &mut [[u64; CELL_WORDS]], horizon: u64, head: Cell, first: Cell)
    requires has_cell { HasCell cells.old head.0 }
    requires ends { Ends cells.old first.0 }
    requires first_value { cnt head.0 (line cells.old first.0) ≡ 0 }
    ensures { cells.new ≡ rule.relink
        (head.0 ∷ keep (alive cells.old horizon) (line cells.old first.0)) cells.old }
{
    let mut last = head;
    let mut c = first;
    // As in `report_dead`: the chain ends where its pointers say.
    while c.0 != 0 {
        let v = arena::version_at(cells, c);
        last = link_kept(cells, v, horizon, last, c);
        c = v.next;
    }
    link(cells, last, Cell(0));
}

// The cells of the reports, given back in the order of the reports.
pub fn give_all(meta: &mut [u64], cells: &mut [[u64; CELL_WORDS]], reports: &[[u64; 3]])
    requires meta_words_in_bounds { meta_words ≤ length meta.old }
    requires all_cells { AllCells cells.old (fronts reports.now 0 (length reports.now)) }
    ensures { (r : List ℕ) (s : List (List ℕ)) → mem {z = base} meta.new r cells.new s
        ≡ fold give_back (fronts reports.now 0 (length reports.now)) (mem meta.old r cells.old s) }
{
    for report in reports {
        arena::give_back(meta, cells, Cell(report[0]));
    }
}
