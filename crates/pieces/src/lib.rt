// The records of a text that arrives in pieces. CR and LF side by side end a record, and nothing else does. Of a record only as much is kept
// as the lent buffer holds, so that a text of any length is read in constant memory.
#![tactic(auto)]

ghost use Rattle.std.specs.Prelude.{◌≡◌, ◌&&◌, List, [], ℕ, ◌<◌, ◌≤◌, eqb, length, drop};
ghost use Rattle.pieces.specs.Held.{Sane, Holds, Handed, Put, Within};

// What is kept of a record whose end has not come: how many of its bytes, and whether the last that came is a CR.
#[derive(Clone, Copy)]
pub struct Held {
    pub count: usize,
    pub cr: bool,
}

// A record, of which the first `count` bytes are kept, and the place after its end; or its end is still to come.
#[derive(Clone, Copy)]
pub enum Next {
    Record { count: usize, at: usize },
    More(Held),
}

fn is_end(cr: bool, b: u8) -> bool
    ensures { result ≡ (cr && eqb b 10) }
{
    cr && b == b'\n'
}

// One byte more, where it has room.
fn put(front: &mut [u8], count: usize, b: u8) -> usize
    ensures { Put front.old front.new count result b }
{
    if count >= front.len() {
        return count;
    }
    front[count] = b;
    count + 1
}

// Nothing has come yet. Not a derived `Default`, which would not say what such a `Held` holds.
pub fn nothing() -> Held
    ensures { ((room : ℕ) → 0 < room → Sane room result) × ((front : List ℕ) → Holds [] front result) }
{
    Held {
        count: 0,
        cr: false,
    }
}

// The next record that ends in the piece from a place on, or what is kept at the piece's end.
pub fn next_record(front: &mut [u8], held: Held, piece: &[u8], from: usize) -> Next
    requires sane { Sane (length front.old) held }
    requires from_in_bounds { from ≤ length piece.now }
    ensures within { Within (length front.new) from (length piece.now) result }
    ensures front_len_unchanged { length front.new ≡ length front.old }
    ensures handed { (p : List ℕ) → Holds p front.old held → Handed p (drop from piece.now) from front.new result }
{
    let mut count = held.count;
    let mut cr = held.cr;
    for (i, b) in piece[from..].iter().enumerate() {
        if is_end(cr, *b) {
            return Next::Record {
                count: count - 1,
                at: from + i + 1,
            };
        }
        count = put(front, count, *b);
        cr = *b == b'\r';
    }
    Next::More(Held { count, cr })
}
