// Memory made by hand, word by word, as the lines of a script say.
#![tactic(auto)]

mod memory;
mod pokes;
mod spots;

pub use memory::{CELLS, Memory, REPORT_WORDS, SLOTS, WORDS, front_len};
pub use pokes::poke;
pub use spots::{Arena, Spot};
