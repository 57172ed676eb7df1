//! The requesters of a run, each at the place of its endpoint ID.

ghost use Rattle.std.specs.Prelude.{◌≡◌, ◌⊎◌, ◌+◌, ◌∷◌, [], None, Some, IfOk, IfErr, length};
ghost use Rattle.mctp_packet.specs.Memories.{out_of_memory};
ghost use Rattle.pldm_requester.specs.Slots.{held_of};
ghost use Rattle.pldm_requester.specs.Steps.{IsHeld, held_at_first};
ghost use Rattle.pldm_requester.specs.Timings.{timing_fault};
ghost use Rattle.mctp_schedule.specs.Places.{BeginEach};
ghost use Rattle.mctp_schedule.specs.RunFaults.{refusal};
ghost use Rattle.schedule_text.specs.Schedules.{AreDistinct};
ghost use Rattle.mctp_schedule.specs.Worlds.{timing_from};

use crate::askers::Asker;
use crate::{RequesterLine, RunFault};
use mctp_packet::{Eid, Keep, MAX_EID, Memory};
use pldm_requester::{Requester, Timing};
use std::alloc::Global;

/// A place for each endpoint ID, from 0 on, so that a step finds its requester at the same cost whatever
/// their number.
pub(crate) type Places = Vec<Option<Asker>>;

/// The requesters of these lines, for the device at the endpoint `device`, each in the place of its
/// endpoint ID.
///
/// # Errors
///
/// The first line whose timing is refused, or `Memory`.
pub(crate) fn begin_requesters(
    alloc: Global,
    device: Eid,
    keep: Keep,
    lines: &[RequesterLine],
) -> Result<Places, RunFault>
    requires { AreDistinct lines.now }
    ensures ok { IfOk result (λ places. refusal device keep lines.now ≡ None) }
    ensures begin { IfOk result (λ places. BeginEach device keep lines.now places.items) }
    ensures err { IfErr result (λ fault.
        (fault ≡ RunFault.Memory out_of_memory) ⊎ (refusal device keep lines.now ≡ Some fault)) }
{
    let mut places = empty_places(alloc)?;
    for line in lines {
        let requester = begin_requester(alloc, device, keep, line)?;
        places[usize::from(line.eid.get())] = Some(Asker::new(alloc, requester));
    }
    Ok(places)
}

/// A place for each endpoint ID, with no requester yet.
fn empty_places(alloc: Global) -> Result<Places, Memory>
    ensures { IfOk result (λ places. length places.items ≡ MAX_EID + 1) }
{
    let count = usize::from(MAX_EID) + 1;
    let mut places = Vec::with_capacity(alloc, count)?; // one growth, and no room beyond the last ID
    for _ in 0..count {
        places.push(None)?;
    }
    Ok(places)
}

/// The requester of a line.
fn begin_requester(
    alloc: Global,
    device: Eid,
    keep: Keep,
    line: &RequesterLine,
) -> Result<Requester, RunFault>
    ensures held { IfOk result (λ requester. IsHeld (held_of requester) (held_at_first line.now.eid device
        (timing_from keep (Some line.now)))) }
    ensures ok { IfOk result (λ requester. timing_fault line.now.eid device (timing_from keep (Some line.now)) ≡ None) }
    ensures err { IfErr result (λ fault. refusal device keep (line.now ∷ []) ≡ Some fault) }
{
    let timing = Timing {
        keep,
        timeout: line.timeout,
        tries: line.tries,
    };
    match Requester::new(alloc, line.eid, device, timing) {
        Ok(requester) => Ok(requester),
        Err(fault) => Err(RunFault::Timing(line.eid, fault)),
    }
}
