// The text of a script of the bench: lines of words and decimal numbers with a blank between. The first word of a line says what it is.
#![tactic(auto)]

pub mod args;
pub mod names;
pub mod text;
pub mod verbs;
