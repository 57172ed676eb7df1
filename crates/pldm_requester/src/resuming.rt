//! What a requester that goes on has: a request that was given up for each opening that it is told of.

ghost use Rattle.std.specs.Prelude.{◌≡◌, ℕ, ◌≤◌, not, Some, slice_get, option_map, length, IfOk};
ghost use Rattle.std.specs.List.{All};
ghost use Rattle.mctp_packet.specs.Ids.{IsMoment};
ghost use Rattle.pldm_requester.specs.Resuming.{IsKnown, last_with, shut_memo};
ghost use Rattle.pldm_requester.specs.Steps.{is_kept, outline_if};
ghost use Rattle.pldm_requester.specs.Numbering.{packets_of};
ghost use Rattle.pldm_requester.specs.declared.requester.TheConstants.{MAX_REMEMBERED};
ghost use Rattle.pldm_wire.specs.declared.assigned.TheConstants.{INSTANCE_IDS};
ghost use Rattle.std.specs.Prelude.{◌<◌, ◌*◌};

use crate::ask::AskRef;
use crate::numbering::{id_of, tag_of};
use crate::remembered::{Content, Remembered};
use crate::{Openings, Pace};
use arrayvec::ArrayVec;
use mctp_packet::{Eid, Memory, Moment, Route};
use pldm_wire::{Command, INSTANCE_IDS};
use std::alloc::Global;

/// When these requests were opened.
pub(crate) fn moments_of(slots: &[Remembered]) -> ArrayVec<u64, 32>
    requires { length slots.now ≤ MAX_REMEMBERED }
    ensures count { length result.items ≡ length slots.now }
    ensures each { (place : ℕ) → slice_get result.items place
        ≡ option_map (λ memo. memo.course.opening) (slice_get slots.now place) }
    ensures ranges { All IsMoment result.items }
{
    let mut moments = ArrayVec::new();
    for place in 0..slots.len() {
        let slot = &slots[place];
        moments.push(slot.opening.get());
    }
    moments
}

/// A request that was given up for each of these openings: in the slot of its instance ID, with so many opened.
pub(crate) fn shut_slots(
    alloc: Global,
    own: Eid,
    device: Eid,
    pace: &Pace,
    count: u64,
    openings: &Openings,
) -> Result<Vec<Remembered>, Memory>
    requires { (id : ℕ) → IsKnown openings.now id }
    ensures count { IfOk result (λ slots. length slots.items ≡ length openings.now.moments.items) }
    ensures slots { IfOk result (λ slots. (id : ℕ) → slice_get slots.items id
        ≡ outline_if (not (is_kept pace.now count (last_with count id)))
        (option_map (shut_memo own device id) (slice_get openings.now.moments.items id))) }
{
    let mut slots = Vec::new(alloc);
    for id in 0..openings.moments.len() {
        let opening = Moment::new(openings.moments[id]).unwrap();
        slots.push(shut_slot(alloc, own, device, pace, count, id as u64, opening)?)?;
    }
    Ok(slots)
}

/// A request with this instance ID that was opened then and given up: whole, where it is among those that are kept so.
fn shut_slot(
    alloc: Global,
    own: Eid,
    device: Eid,
    pace: &Pace,
    count: u64,
    id: u64,
    opening: Moment,
) -> Result<Remembered, Memory>
    requires { id < INSTANCE_IDS }
    ensures { IfOk result (λ memo. Some memo ≡ outline_if (not (is_kept pace.now count (last_with count id)))
        (Some (shut_memo own device id opening))) }
{
    let number = last_with(count, id);
    if count > number + pace.kept() {
        return Ok(Remembered::shut(None, opening));
    }
    let content = Box::new(alloc, shut_content(own, device, id))?;
    Ok(Remembered::shut(Some(content), opening))
}

/// The number of the last request with an instance ID, below a count of at most twice the instance IDs.
fn last_with(count: u64, id: u64) -> u64
    requires { id < INSTANCE_IDS }
    ensures value { result ≡ last_with count id }
    ensures range { result < 2 * INSTANCE_IDS }
{
    if u64::from(INSTANCE_IDS) + id < count {
        u64::from(INSTANCE_IDS) + id
    } else {
        id
    }
}

/// What is kept of a request for the terminus ID with this instance ID.
fn shut_content(own: Eid, device: Eid, id: u64) -> Content
    ensures { result.packets ≡ packets_of own device id Command.GetTid }
{
    let route = Route {
        destination: device,
        source: own,
        owner: true,
        tag: tag_of(id),
    };
    Content::new(id_of(id), &AskRef::Command(&Command::GetTid), &route)
}
