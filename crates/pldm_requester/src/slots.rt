//! The slots of a requester, one for each instance ID: each has the last request with it.

ghost use Rattle.std.specs.Prelude.{◌≡◌, ◌-◌, ◌%◌, ◌<◌, ◌≤◌, true, is_some, slice_get, option_map, vec_len, vec_capacity, OnOk, OnErr, IfOk};
ghost use Rattle.mctp_packet.specs.Pieces.{written_packets};
ghost use Rattle.pldm_requester.specs.Asks.{ask_message};
ghost use Rattle.pldm_requester.specs.AskRefs.{HasRoom, IsReadable, ask_in};
ghost use Rattle.pldm_requester.specs.Numbering.{id_of};
ghost use Rattle.pldm_requester.specs.Pacing.{kept};
ghost use Rattle.pldm_requester.specs.Slots.{IsWholeAt, freed, put_slot};

use crate::ask::AskRef;
use crate::numbering::id_of;
use crate::remembered::{Content, Remembered};
use crate::{MAX_REMEMBERED, Pace};
use mctp_packet::{Memory, Route};

/// Takes the room for one more slot, where there are not all yet.
pub(crate) fn make_room(slots: &mut Vec<Remembered>) -> Result<(), Memory>
    ensures items { slots.new.items ≡ slots.old.items }
    ensures ok { OnOk result (vec_len slots.old < MAX_REMEMBERED → vec_len slots.new < vec_capacity slots.new) }
    ensures err { OnErr result (vec_len slots.old < MAX_REMEMBERED) }
{
    if slots.len() < MAX_REMEMBERED {
        slots.reserve(1)?;
    }
    Ok(())
}

/// What is kept of a new request with this number, which asks so and goes on this route: in the room of the one that is
/// kept no longer, or, of the first requests, in a new one.
pub(crate) fn content_for(
    slots: &mut Vec<Remembered>,
    pace: &Pace,
    number: u64,
    ask: &AskRef<'_>,
    route: &Route,
) -> Result<Box<Content>, Memory>
    requires data { HasRoom ask.now }
    requires kept { kept pace.now ≤ number → IsWholeAt ((number - kept pace.now) % MAX_REMEMBERED) slots.old.items }
    ensures content { IfOk result (λ content. content.value.packets
        ≡ written_packets route.now (ask_message (id_of number) (ask_in ask.now))) }
    ensures freed { OnOk result (slots.new.items ≡ freed pace.now number slots.old.items) }
    ensures same { OnErr result (slots.new.items ≡ slots.old.items) }
    ensures few { OnErr result (number < kept pace.now) }
    ensures room { vec_capacity slots.new ≡ vec_capacity slots.old }
    ensures readable { OnOk result (IsReadable ask.now) }
{
    let kept = pace.kept();
    if number < kept {
        let content = Content::new(id_of(number), ask, route);
        return Ok(Box::new(*slots.allocator(), content)?);
    }
    let slot = &mut slots[((number - kept) % MAX_REMEMBERED as u64) as usize];
    let mut content = slot.let_go().unwrap();
    content.begin(id_of(number), ask, route);
    Ok(content)
}

/// Puts a request in the slot of its number, or at the end, where there has to be room.
pub(crate) fn put(slots: &mut Vec<Remembered>, number: u64, request: Remembered)
    requires room { number < MAX_REMEMBERED → vec_len slots.old < vec_capacity slots.old }
    requires slot { MAX_REMEMBERED ≤ number → vec_len slots.old ≡ MAX_REMEMBERED }
    ensures { slots.new.items ≡ put_slot number slots.old.items request }
{
    if number < MAX_REMEMBERED as u64 {
        slots.push(request).unwrap();
    } else {
        slots[(number % MAX_REMEMBERED as u64) as usize] = request;
    }
}
