// The names of words, each list in the order in which the words lie.

// How much is lent of each arena.
pub const LENT: [&str; 7] = [
    "meta", "heads", "results", "wanted", "cells", "slots", "reports",
];

pub const META: [&str; 4] = ["rows", "cells", "clock", "free"];

pub const CELL: [&str; 8] = [
    "xmin", "xmax", "next", "keyed", "key", "locked", "owner", "link",
];

// Of a slot, before its lists.
pub const SLOT: [&str; 4] = ["id", "low", "top", "actives"];

// Of an entry of a write set, of a read record, and of a report.
pub const ENTRY: [&str; 3] = ["row", "base", "new"];

pub const RECORD: [&str; 3] = ["row", "cell", "xmin"];

pub const REPORT: [&str; 3] = ["cell", "keyed", "key"];

// The place of a name in a list.
pub fn place(name: &[u8], names: &[&str]) -> Option<usize> {
    names.iter().position(|n| n.as_bytes() == name)
}
