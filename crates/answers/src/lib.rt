// Answer lines of the replay program, put into a lent buffer from a place on. Each function answers the place after what it put.
#![tactic(auto)]

ghost use Rattle.std.specs.Prelude.{[], ◌∷◌, ◌+◌, ◌*◌, ◌≤◌, length};
ghost use Rattle.digits.specs.Numbers.{Laid};
ghost use Rattle.answers.specs.Answers.{field, fields, answer, wOk, wNone, wEmpty, wKey, wRefused, span, room};

fn put_bytes(buf: &mut [u8], at: usize, w: &[u8]) -> usize
    requires { at + length w.now ≤ length buf.old }
    ensures { Laid buf.old buf.new at result w.now }
{
    let end = at + w.len();
    buf[at..end].copy_from_slice(w);
    end
}

fn put_field(buf: &mut [u8], at: usize, n: u64) -> usize
    requires { at + span ≤ length buf.old }
    ensures { Laid buf.old buf.new at result (field n) }
{
    buf[at] = b',';
    digits::put(buf, at + 1, n)
}

fn put_fields(buf: &mut [u8], at: usize, ns: &[u64]) -> usize
    requires { at + span * length ns.now ≤ length buf.old }
    ensures { Laid buf.old buf.new at result (fields ns.now) }
{
    let mut p = at;
    for n in ns {
        p = put_field(buf, p, *n);
    }
    p
}

// A word, its numbers and the line's end.
fn put_answer(buf: &mut [u8], at: usize, w: &[u8], ns: &[u64]) -> usize
    requires { at + (length w.now + (span * length ns.now + 2)) ≤ length buf.old }
    ensures { Laid buf.old buf.new at result (answer w.now ns.now) }
{
    let p = put_bytes(buf, at, w);
    let q = put_fields(buf, p, ns);
    put_bytes(buf, q, b"\r\n")
}

// `ok` and numbers: a slot and an id, a cell, rows, or none.
pub fn ok(buf: &mut [u8], at: usize, ns: &[u64]) -> usize
    requires { at + room (length ns.now) ≤ length buf.old }
    ensures { Laid buf.old buf.new at result (answer wOk ns.now) }
{
    put_answer(buf, at, b"ok", ns)
}

// `ok`, how many, and they.
pub fn counted(buf: &mut [u8], at: usize, count: u64, ns: &[u64]) -> usize
    requires { at + room (length ns.now + 1) ≤ length buf.old }
    ensures { Laid buf.old buf.new at result (answer wOk (count ∷ ns.now)) }
{
    let p = put_bytes(buf, at, b"ok");
    let q = put_field(buf, p, count);
    let e = put_fields(buf, q, ns);
    put_bytes(buf, e, b"\r\n")
}

#[tactic(auto, unfolding(crate::specs::Answers::answer, crate::specs::Answers::fields))]
pub fn none(buf: &mut [u8], at: usize) -> usize
    requires { at + room 0 ≤ length buf.old }
    ensures { Laid buf.old buf.new at result (answer wNone []) }
{
    put_bytes(buf, at, b"none\r\n")
}

#[tactic(auto, unfolding(crate::specs::Answers::answer, crate::specs::Answers::fields))]
pub fn empty(buf: &mut [u8], at: usize) -> usize
    requires { at + room 0 ≤ length buf.old }
    ensures { Laid buf.old buf.new at result (answer wEmpty []) }
{
    put_bytes(buf, at, b"empty\r\n")
}

pub fn key(buf: &mut [u8], at: usize, k: u64) -> usize
    requires { at + room 1 ≤ length buf.old }
    ensures { Laid buf.old buf.new at result (answer wKey (k ∷ [])) }
{
    put_answer(buf, at, b"key", &[k])
}

// A refusal, by its number.
pub fn refused(buf: &mut [u8], at: usize, number: u64) -> usize
    requires { at + room 1 ≤ length buf.old }
    ensures { Laid buf.old buf.new at result (answer wRefused (number ∷ [])) }
{
    put_answer(buf, at, b"refused", &[number])
}
