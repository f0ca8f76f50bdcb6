// Where a word and a line of a text end.
pub const BLANK: u8 = b' ';

pub const LINE_END: u8 = b'\n';

// The first word of a line, and what follows the blank after it: nothing where there is none.
pub fn split_word(line: &[u8]) -> (&[u8], &[u8]) {
    match line.iter().position(|b| *b == BLANK) {
        Some(at) => (&line[..at], &line[at + 1..]),
        None => (line, b""),
    }
}
