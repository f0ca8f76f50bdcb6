// One record of the replay program, a line without its end, read as a call. specs/Lines.antt says what a record means.
#![tactic(auto)]

ghost use Rattle.std.specs.Prelude.{◌≡◌, eqb, [], ◌<◌, ◌≤◌, ◌↔◌, IsTrue, length, position};
ghost use Rattle.lines.specs.Lines.{meaning, word_of};
ghost use Rattle.lines.specs.Fields.{rest, Cut, Stepped, Counted};
ghost use Rattle.lines.specs.Calls.{numbers_of, ending};

// A call, with its numbers as the record gives them. A record that is no call is a case of its own, and no Option: so say `meaning` and the
// theorems on it (`too_long_for_a_call`, `cut_means_the_same`).
#[derive(Clone, Copy)]
pub enum Line {
    Store {
        n: u64,
        r: u64,
    },
    Begin,
    Read {
        slot: u64,
        id: u64,
        row: u64,
    },
    Write {
        slot: u64,
        id: u64,
        row: u64,
        key: u64,
    },
    Delete {
        slot: u64,
        id: u64,
        row: u64,
    },
    Commit {
        slot: u64,
        id: u64,
    },
    Abort {
        slot: u64,
        id: u64,
    },
    Vacuum {
        row: u64,
        request: u64,
    },
    Find {
        slot: u64,
        id: u64,
        key: u64,
    },
    Other,
}

// The word of a call, or another: `word_of` and `ending` have a line for it.
#[derive(Clone, Copy)]
pub enum Word {
    Store,
    Begin,
    Read,
    Write,
    Commit,
    Abort,
    Vacuum,
    Find,
    Other,
}

// A number field, and the place after it: a comma or the end.
#[derive(Clone, Copy)]
pub struct Field {
    pub value: u64,
    pub end: usize,
}

// Number fields, one after another, and the place after them. Fewer than three stand last.
#[derive(Clone, Copy)]
pub struct Numbers {
    pub a: u64,
    pub b: u64,
    pub c: u64,
    pub end: usize,
}

// The place of the first comma.
fn first_comma(s: &[u8]) -> Option<usize>
    ensures { result ≡ position (λ b. eqb b 44) s.now }
{
    s.iter().position(|b| *b == b',')
}

// The place of the first comma from a place on, or the end.
fn comma(s: &[u8], from: usize) -> usize
    requires { from ≤ length s.now }
    ensures { Cut s.now from result }
{
    match first_comma(&s[from..]) {
        Some(i) => from + i,
        None => s.len(),
    }
}

// The field that starts after the comma at a place, read as a number. At the end there is none.
fn number_at(s: &[u8], at: usize) -> Option<Field>
    requires { at ≤ length s.now }
    ensures { Stepped s.now at result }
{
    if at >= s.len() {
        return None;
    }
    let from = at + 1;
    let end = comma(s, from);
    let value = digits::parse(&s[from..end])?;
    Some(Field { value, end })
}

// A number of fields read as numbers, from the comma at a place on.
fn numbers_at(s: &[u8], at: usize, n: usize) -> Option<Numbers>
    requires { at ≤ length s.now }
    ensures { Counted s.now at n result }
{
    let mut all = Numbers {
        a: 0,
        b: 0,
        c: 0,
        end: at,
    };
    for _ in 0..n {
        let Field { value, end } = number_at(s, all.end)?;
        all = Numbers {
            a: all.b,
            b: all.c,
            c: value,
            end,
        };
    }
    Some(all)
}

// The field after a call's numbers: a write's key, or nothing after its comma. No other call has one.
fn key_at(s: &[u8], at: usize, w: Word, slot: u64, id: u64, row: u64) -> Line
    requires { at < length s.now }
    ensures { result ≡ ending w slot id row (rest s.now at) }
{
    let Word::Write = w else {
        return Line::Other;
    };
    if at + 1 == s.len() {
        return Line::Delete { slot, id, row };
    }
    match number_at(s, at) {
        Some(Field { value: key, end }) if end == s.len() => Line::Write { slot, id, row, key },
        _ => Line::Other,
    }
}

// Are the two the same bytes? Not `==` on slices: words are short, and it was slower.
fn same(s: &[u8], w: &[u8]) -> bool
    ensures { IsTrue result ↔ (s.now ≡ w.now) }
{
    s.len() == w.len() && s.iter().zip(w).all(|(a, b)| *a == *b)
}

// The word that the bytes are. Not a `match` on byte strings: of those a proof knows the lengths alone.
#[tactic(auto, using(crate::specs::Words::same_true, crate::specs::Words::same_false), unfolding(crate::specs::Lines::word_of))]
fn word_of(s: &[u8]) -> Word
    ensures { result ≡ word_of s.now }
{
    if same(s, b"store") {
        Word::Store
    } else if same(s, b"begin") {
        Word::Begin
    } else if same(s, b"read") {
        Word::Read
    } else if same(s, b"write") {
        Word::Write
    } else if same(s, b"commit") {
        Word::Commit
    } else if same(s, b"abort") {
        Word::Abort
    } else if same(s, b"vacuum") {
        Word::Vacuum
    } else if same(s, b"find") {
        Word::Find
    } else {
        Word::Other
    }
}

// How many numbers follow a word; a write's key comes after them.
fn numbers_of(w: Word) -> usize
    ensures { result ≡ numbers_of w }
{
    match w {
        Word::Begin | Word::Other => 0,
        Word::Store | Word::Commit | Word::Abort | Word::Vacuum => 2,
        Word::Read | Word::Write | Word::Find => 3,
    }
}

// The call of a word and its numbers, where no field follows: a write lacks its key.
#[tactic(auto, unfolding(crate::specs::Calls::ending, crate::specs::Lines::done, crate::specs::Lines::keyed))]
fn made(w: Word, a: u64, b: u64, c: u64) -> Line
    ensures { result ≡ ending w a b c [] }
{
    match w {
        Word::Store => Line::Store { n: b, r: c },
        Word::Begin => Line::Begin,
        Word::Read => Line::Read {
            slot: a,
            id: b,
            row: c,
        },
        Word::Commit => Line::Commit { slot: b, id: c },
        Word::Abort => Line::Abort { slot: b, id: c },
        Word::Vacuum => Line::Vacuum { row: b, request: c },
        Word::Find => Line::Find {
            slot: a,
            id: b,
            key: c,
        },
        Word::Write | Word::Other => Line::Other,
    }
}

// The call that a record is.
pub fn parse_line(s: &[u8]) -> Line
    ensures { result ≡ meaning s.now }
{
    let e = comma(s, 0);
    let w = word_of(&s[..e]);
    let Some(Numbers { a, b, c, end }) = numbers_at(s, e, numbers_of(w)) else {
        return Line::Other;
    };
    if end == s.len() {
        made(w, a, b, c)
    } else {
        key_at(s, end, w, a, b, c)
    }
}
