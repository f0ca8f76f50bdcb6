// An answer as numbers, and a value from numbers. What has no such number gives 0.
#![tactic(auto)]

ghost use Rattle.std.specs.Prelude.{◌≡◌};
ghost use Rattle.kinds.specs.Results.{seen};
ghost use Rattle.kinds.specs.Versions.{given};
ghost use Rattle.told.specs.Numbers as spec;
ghost use Rattle.told.specs.Numbers.{number_in, about_in, chosen};

use kinds::{Reading, Refusal};

// What a row holds, as a read finds it: no version, a version without a key, or a key. The C header has these numbers.
pub const NO_VERSION: u64 = 0;

pub const NO_KEY: u64 = 1;

pub const A_KEY: u64 = 2;

// 0 where the call was accepted, else the refusal's number.
pub fn number_of<T>(answer: &Result<T, Refusal>) -> u64
    ensures { result ≡ number_in answer.now }
{
    match answer {
        Ok(_) => 0,
        Err(refusal) => refusal.number(),
    }
}

// What a refusal is about: a row or an id.
pub fn about<T>(answer: &Result<T, Refusal>) -> u64
    ensures { result ≡ about_in answer.now }
{
    match answer {
        Ok(_) => 0,
        Err(refusal) => refusal.about(),
    }
}

// Which of the three; of a refused read as of no version.
pub fn kind(answer: &Result<Reading, Refusal>) -> u64
    ensures { result ≡ spec.kind (seen answer.now) }
{
    match answer {
        Ok(Reading::None) | Err(_) => NO_VERSION,
        Ok(Reading::Empty) => NO_KEY,
        Ok(Reading::Key(_)) => A_KEY,
    }
}

// The key; 0 where there is none.
pub fn read_key(answer: &Result<Reading, Refusal>) -> u64
    ensures { result ≡ spec.read_key (seen answer.now) }
{
    match answer {
        Ok(Reading::None | Reading::Empty) | Err(_) => 0,
        Ok(Reading::Key(key)) => *key,
    }
}

// The value to write: a key, or none to delete where `keyed` is 0.
pub fn value(keyed: u64, key: u64) -> Option<u64>
    ensures { given result ≡ chosen keyed key }
{
    (keyed != 0).then_some(key)
}
