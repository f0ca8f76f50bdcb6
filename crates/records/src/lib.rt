// The slots for hosts: records of two numbers that lie side by side, and what is taken over that lent list. Nothing is changed, nothing
// is asked of the list, and it may have any length. What a slot counts for is left to one function, `lower`.
#![tactic(auto)]

ghost use Rattle.std.specs.Prelude.{◌≡◌};
ghost use Rattle.records.specs.Horizon.{lowered, horizon_of, least_active};

// A slot: its transaction id (0 = empty) and its snapshot's xmin.
#[repr(C)]
#[derive(Clone, Copy)]
pub struct Slot {
    pub id: u64,
    pub xmin: u64,
}

// A slot with the number `own` lowers `least` to it; an empty one (id 0) does not count.
fn lower(id: u64, own: u64, least: u64) -> u64
    ensures { result ≡ lowered id own least }
{
    if id == 0 { least } else { own.min(least) }
}

// The retention horizon: least of the request, the clock and the snapshot xmin of all occupied slots.
pub fn retention_horizon(slots: &[Slot], clock: u64, request: u64) -> u64
    ensures { result ≡ horizon_of slots.now clock request }
{
    let ceiling = request.min(clock);
    slots
        .iter()
        .fold(ceiling, |least, slot| lower(slot.id, slot.xmin, least))
}

// The least active id, or the clock where no id is below it.
pub fn least_active(slots: &[Slot], clock: u64) -> u64
    ensures { result ≡ least_active slots.now clock }
{
    slots
        .iter()
        .fold(clock, |least, slot| lower(slot.id, slot.id, least))
}
