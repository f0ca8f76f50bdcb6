// What a call changed: every word of the memory that is not as it was, told by name. Neighbours that changed alike are one line.
#![tactic(auto)]

mod columns;
mod runs;

pub use columns::Column;
use handmade::{Arena, Memory, REPORT_WORDS, SLOTS, Spot};
pub use runs::Run;
use runs::say_run;
use std::io;
use std::io::Write;
use words::CELL_WORDS;

// What a word became, where it is not as it was.
fn change(before: &Memory, now: &Memory, spot: Spot) -> Option<u64> {
    now.word(spot).filter(|x| before.word(spot) != Some(*x))
}

// What changed in a column, run by run.
fn tell<W: Write>(to: &mut W, before: &Memory, now: &Memory, c: Column) -> io::Result<()> {
    let mut run: Option<Run> = None;
    for i in 0..c.len() {
        let Some(x) = change(before, now, c.spot(i)) else {
            continue;
        };
        let longer = run.and_then(|r| r.with(i, x, c.rise()));
        if longer.is_none() {
            say_run(to, c, run)?;
        }
        run = longer.or(Some(Run::new(i, x)));
    }
    say_run(to, c, run)
}

// Every word that is not as it was: lists and slots one by one, cells and reports word by word.
pub fn tell_changes<W: Write>(to: &mut W, before: &Memory, now: &Memory) -> io::Result<()> {
    for list in [
        Arena::Meta,
        Arena::Heads,
        Arena::Results,
        Arena::Wanted,
        Arena::Lent,
    ] {
        tell(to, before, now, Column::List(list))?;
    }
    for word in 0..CELL_WORDS {
        tell(to, before, now, Column::CellWord(word))?;
    }
    for slot in 0..SLOTS {
        tell(to, before, now, Column::Slot(slot))?;
    }
    for word in 0..REPORT_WORDS {
        tell(to, before, now, Column::ReportWord(word))?;
    }
    Ok(())
}
