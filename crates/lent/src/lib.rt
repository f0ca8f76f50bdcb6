// The arenas of the bench's memory as the store takes them: of each the entries that are lent.
#![tactic(auto)]

use handmade::{Memory, REPORT_WORDS, front_len};
use words::{CELL_WORDS, WIDTH};

#[derive(Drop)]
pub struct Arenas<'a> {
    pub meta: &'a mut [u64],
    pub heads: &'a mut [u64],
    pub results: &'a mut [u64],
    pub wanted: &'a [u64],
    pub cells: &'a mut [[u64; CELL_WORDS]],
    pub slots: &'a mut [[u64; WIDTH]],
    pub reports: &'a mut [[u64; REPORT_WORDS]],
}

// The front of an arena: the whole where more is said to be lent than there is.
fn front<T>(arena: &mut [T], lent: u64) -> &mut [T] {
    let n = front_len(lent, arena.len());
    &mut arena[..n]
}

// Each arena as far as the memory says.
pub fn lend(mem: &mut Memory) -> Arenas<'_> {
    let [m, h, r, w, c, s, p, ..] = mem.lent;
    let Memory {
        meta,
        heads,
        results,
        wanted,
        lent: _,
        cells,
        slots,
        reports,
    } = mem;
    Arenas {
        meta: front(meta, m),
        heads: front(heads, h),
        results: front(results, r),
        wanted: front(wanted, w),
        cells: front(cells, c),
        slots: front(slots, s),
        reports: front(reports, p),
    }
}
