// Decimal numbers as bytes: a number read from a slice, and a number put into a buffer.
#![tactic(auto)]

ghost use Rattle.std.specs.Prelude.{◌≡◌, ◌+◌, ◌≤◌, length};
ghost use Rattle.digits.specs.Numbers.{leads as Numbers·leads, number_of, digits, most, Laid};

// At least one byte, and a zero in front only alone.
fn leads(s: &[u8]) -> bool
    ensures { result ≡ Numbers·leads s.now }
{
    match s {
        [] => false,
        [_] => true,
        [first, ..] => *first != b'0',
    }
}

// The number that the bytes say. Each step is tested, so that it keeps its width however many digits come.
pub fn parse(s: &[u8]) -> Option<u64>
    ensures { result ≡ number_of s.now }
{
    if !leads(s) {
        return None;
    }
    let mut v: u64 = 0;
    for b in s {
        let d = match *b {
            b'0'..=b'9' => *b - b'0',
            _ => return None,
        };
        v = v.checked_mul(10)?.checked_add(d as u64)?;
    }
    Some(v)
}

// How many digits n has.
fn count(n: u64) -> usize
    ensures { (result ≡ length (digits n)) × (result ≤ most) }
{
    let mut k = 1;
    let mut rest = n;
    // No list is gone over: the number itself falls.
    while rest >= 10 {
        rest /= 10;
        k += 1;
    }
    k
}

// Puts the digits of n into the buffer from at, the last first; answers the place after them.
pub fn put(buf: &mut [u8], at: usize, n: u64) -> usize
    requires { at + most ≤ length buf.old }
    ensures { Laid buf.old buf.new at result (digits n) }
{
    let k = count(n);
    let mut rest = n;
    // By places: with `iter_mut().rev()` it was not proved what the buffer holds in the end.
    for i in (at..at + k).rev() {
        buf[i] = b'0' + (rest % 10) as u8;
        rest /= 10;
    }
    at + k
}
