// Paper 01's "run only" numbers on visibility, reclaiming, snapshot and horizon, on hand-made memory: one line for each, compared with
// the file stdout, which was worked out from the paper.
#![tactic(auto)]

use kinds::Version;
use std::io;
use std::io::Write;
use words::{ACTIVE, ID, LAST_ID, LOW, SLOTS, TOP, TxId, WIDTH};

fn say<W: Write>(to: &mut W, b: bool) -> io::Result<()> {
    writeln!(to, "{}", if b { "yes" } else { "no" })
}

fn version(xmin: u64, xmax: u64) -> Version {
    Version {
        xmin: TxId(xmin),
        xmax: TxId(xmax),
        ..Version::EMPTY
    }
}

// "Reader id 6, xmin 4, xmax 7, active 4 and 6."
fn set_reader(slot: &mut [u64; WIDTH]) {
    slot[ID] = 6;
    slot[LOW] = 4;
    slot[TOP] = 7;
    slot[ACTIVE] = 2;
    slot[ACTIVE + 1] = 4;
    slot[ACTIVE + 2] = 6;
}

// Of each version, by its xmin and xmax: does the reader see it?
fn say_seen<W: Write>(to: &mut W, slot: &[u64; WIDTH], versions: &[(u64, u64)]) -> io::Result<()> {
    for (xmin, xmax) in versions {
        say(to, version(*xmin, *xmax).is_visible(slot))?;
    }
    Ok(())
}

fn worked_versions<W: Write>(to: &mut W, slot: &[u64; WIDTH]) -> io::Result<()> {
    writeln!(to, "seen")?;
    say_seen(to, slot, &[(5, 0), (6, 0), (5, 4), (3, 7)])?;
    writeln!(to, "not seen")?;
    say_seen(to, slot, &[(4, 0), (7, 0), (3, 5), (3, 6), (0, 0)])?;
    writeln!(to, "own, superseded by own or by a committed id: not seen")?;
    say_seen(to, slot, &[(6, 6), (6, 5)])
}

// "horizon 5 with xmax 4 reclaimable, 5 and 0 not"
fn worked_reclaiming<W: Write>(to: &mut W) -> io::Result<()> {
    writeln!(
        to,
        "reclaimable at horizon 5: xmax 4, 5, 0, and 4 with a lock flag of 7"
    )?;
    let held = Version {
        locked: 7,
        ..version(1, 4)
    };
    for v in [version(1, 4), version(1, 5), version(1, 0), held] {
        say(to, v.is_reclaimable(5))?;
    }
    Ok(())
}

fn say_snapshot<W: Write>(to: &mut W, slots: &[[u64; WIDTH]; SLOTS], clock: u64) -> io::Result<()> {
    let s = slots::snapshot_of(slots, clock);
    writeln!(to, "{}", s.low)?;
    writeln!(to, "{}", s.top)
}

fn say_lowest_empty<W: Write>(to: &mut W, slots: &[[u64; WIDTH]; SLOTS]) -> io::Result<()> {
    match slots::lowest_empty(slots) {
        Some(i) => writeln!(to, "{i}"),
        None => writeln!(to, "none"),
    }
}

fn worked_snapshots<W: Write>(to: &mut W, slots: &mut [[u64; WIDTH]; SLOTS]) -> io::Result<()> {
    writeln!(to, "snapshot of no slot, clock 9")?;
    say_snapshot(to, slots, 9)?;
    writeln!(to, "slots 4 and 7, clock 9")?;
    slots[1][ID] = 4;
    slots[3][ID] = 7;
    say_snapshot(to, slots, 9)?;
    writeln!(to, "slots 4 and 12, clock 9")?;
    slots[3][ID] = 12;
    say_snapshot(to, slots, 9)?;
    writeln!(to, "slots 4 and the last id, clock 9")?;
    slots[3][ID] = LAST_ID;
    say_snapshot(to, slots, 9)?;
    writeln!(to, "lowest empty slot: 0, then 2 where 0 and 1 are taken")?;
    say_lowest_empty(to, slots)?;
    slots[0][ID] = 1;
    say_lowest_empty(to, slots)
}

// Slot 1 is open with snapshot xmin 7; slot 2 is empty, its rubbish 3 counts for nothing.
fn worked_horizons<W: Write>(to: &mut W, slots: &mut [[u64; WIDTH]; SLOTS]) -> io::Result<()> {
    writeln!(to, "horizon: request 5, clock 9, xmin 7")?;
    slots[1][ID] = 8;
    slots[1][LOW] = 7;
    slots[2][LOW] = 3;
    writeln!(to, "{}", slots::horizon(slots, 9, 5))?;
    writeln!(to, "request the last id; clock 6 and the same")?;
    writeln!(to, "{}", slots::horizon(slots, 9, LAST_ID))?;
    writeln!(to, "{}", slots::horizon(slots, 6, LAST_ID))?;
    writeln!(to, "an older reader of xmin 2 under a later id")?;
    slots[4][ID] = 9;
    slots[4][LOW] = 2;
    writeln!(to, "{}", slots::horizon(slots, 20, LAST_ID))
}

fn main(rt: HostRuntime) -> io::Result<()> {
    let mut output = rt.stdout();
    let mut slot = [0; WIDTH];
    set_reader(&mut slot);
    worked_versions(&mut output, &slot)?;
    worked_reclaiming(&mut output)?;
    let mut some = [[0; WIDTH]; SLOTS];
    worked_snapshots(&mut output, &mut some)?;
    let mut others = [[0; WIDTH]; SLOTS];
    worked_horizons(&mut output, &mut others)
}
