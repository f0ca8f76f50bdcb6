// The first words of a script's lines: what a line says.

// A line begins a case, fills the memory, makes a part of it by hand, or is a call.
#[derive(Clone, Copy, Debug, PartialEq, Eq)]
pub enum Verb {
    Case,
    Memory,
    Poke(Poke),
    Call(Call),
}

// Lines that make memory: words of one entry by their names, words side by side, and series of words.
#[derive(Clone, Copy, Debug, PartialEq, Eq)]
pub enum Poke {
    Lend,
    Meta,
    Cell,
    Slot,
    Head,
    Want,
    Open,
    Entry,
    Record,
    Heads,
    Wants,
    Cells,
    Slots,
    Entries,
    Records,
}

// The public calls of the store.
#[derive(Clone, Copy, Debug, PartialEq, Eq)]
pub enum Call {
    Create,
    Begin,
    Read,
    Write,
    Delete,
    Commit,
    Abort,
    Vacuum,
    Lookup,
    LookupAll,
    Front,
}

impl Verb {
    // The verb that a word is.
    pub fn named(word: &[u8]) -> Option<Verb> {
        match word {
            b"case" => Some(Verb::Case),
            b"memory" => Some(Verb::Memory),
            _ => Poke::named(word)
                .map(Verb::Poke)
                .or_else(|| Call::named(word).map(Verb::Call)),
        }
    }
}

impl Poke {
    fn named(word: &[u8]) -> Option<Poke> {
        Some(match word {
            b"lend" => Poke::Lend,
            b"meta" => Poke::Meta,
            b"cell" => Poke::Cell,
            b"slot" => Poke::Slot,
            b"head" => Poke::Head,
            b"want" => Poke::Want,
            b"open" => Poke::Open,
            b"entry" => Poke::Entry,
            b"record" => Poke::Record,
            b"heads" => Poke::Heads,
            b"wants" => Poke::Wants,
            b"cells" => Poke::Cells,
            b"slots" => Poke::Slots,
            b"entries" => Poke::Entries,
            b"records" => Poke::Records,
            _ => return None,
        })
    }
}

impl Call {
    fn named(word: &[u8]) -> Option<Call> {
        Some(match word {
            b"create" => Call::Create,
            b"begin" => Call::Begin,
            b"read" => Call::Read,
            b"write" => Call::Write,
            b"delete" => Call::Delete,
            b"commit" => Call::Commit,
            b"abort" => Call::Abort,
            b"vacuum" => Call::Vacuum,
            b"lookup" => Call::Lookup,
            b"lookup_all" => Call::LookupAll,
            b"front" => Call::Front,
            _ => return None,
        })
    }
}
