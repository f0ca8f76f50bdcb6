// A bench for the public calls: each is run on hand-made memory, as much of it as is lent, and its answer is told.
#![tactic(auto)]

use handmade::Memory;
use lent::{Arenas, lend};
use saying::{Listed, say, say_front};
use script::args::Args;
use script::verbs::Call;
use std::io;
use std::io::Write;
use words::TxId;

// A call on the memory, each arena lent as far as it says.
pub fn run<W: Write>(to: &mut W, mem: &mut Memory, call: Call, args: &Args) -> io::Result<()> {
    let Arenas {
        meta,
        heads,
        results,
        wanted,
        cells,
        slots,
        reports,
    } = lend(mem);
    // The line's numbers, as each call takes them.
    let [a, b, c, d] = [args.at(0), args.at(1), args.at(2), args.at(3)];
    let id = TxId(b);
    match call {
        Call::Create => say(to, store::create(meta, heads, cells, slots, a, b)),
        Call::Begin => say(to, store::begin(meta, heads, cells, slots)),
        Call::Read => say(to, store::read(meta, heads, cells, slots, a, id, c)),
        Call::Write => say(
            to,
            store::write(meta, heads, cells, slots, a, id, c, Some(d)),
        ),
        Call::Delete => say(to, store::write(meta, heads, cells, slots, a, id, c, None)),
        Call::Commit => say(to, store::commit(meta, heads, cells, slots, a, id)),
        Call::Abort => say(to, store::abort(meta, heads, cells, slots, a, id)),
        Call::Vacuum => say(to, store::vacuum(meta, heads, cells, slots, a, b, reports)),
        Call::Lookup => say(
            to,
            store::lookup(meta, heads, cells, slots, a, id, c, wanted, results).map(Listed),
        ),
        Call::LookupAll => say(
            to,
            store::lookup_all(meta, heads, cells, slots, a, id, c, results).map(Listed),
        ),
        Call::Front => say_front(to, store::front(results, a)),
    }
}
