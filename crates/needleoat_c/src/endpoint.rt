//! The work of each call on the endpoint behind a handle.

ghost use Rattle.std.specs.Prelude.{◌≡◌, ◌≤◌, Some, Ok, Err, IfErr, IfOk, IfSome, IsSome, OnOk, OnErr, is_some, length, slice_get};
ghost use Rattle.mctp_packet.specs.Pieces.{written_packets};
ghost use Rattle.pldm_wire.specs.Answers.{IsAnswerTo};
ghost use Rattle.pldm_wire.specs.Commands.{kind_of};
ghost use Rattle.pldm_responder.specs.Answering.{answering};
ghost use Rattle.pldm_endpoint.specs.RequestKeys.{pending_at};
ghost use Rattle.pldm_endpoint.specs.TwoSteps.{IsOfCommand, held_in};
ghost use Rattle.needleoat_c.specs.Endpoints.{AreOf, ArePackets, HasCommand, HasRequest, IsInFront, IsLeftByAnswer, IsLeftByPacket, IsLeftByResponse, IsLeftByRestart, IsMade, IsPerform, IsStarted, ReportsControl, ReportsGiven, ReportsOutcome, ReportsPacketIn, ReportsStep, answer_outcome, given_to, is_next, number_of_refusal, pending_under, refusal_at, response_outcome, unanswered, with_packets};
ghost use Rattle.needleoat_c.specs.Settings.{IsSetup, first_eid, keeping_in};
ghost use Rattle.pldm_endpoint.specs.Stepping.{stepping};

use crate::kinds::{
    STEP_ANSWERED, STEP_CONTROL, STEP_DROPPED, STEP_PARTIAL, STEP_PERFORM, STEP_REFUSED,
    STEP_RESPOND,
};
use crate::refusals::{
    BAD_MOMENT, BEING_PERFORMED, NO_MEMORY, NOT_ITS_ANSWER, NOT_PENDING, OUT_OF_RANGE, OUT_OF_TURN,
    TOO_MANY_COMMANDS, TOO_MANY_OPEN_MESSAGES, TOO_MANY_SOURCES,
};
use crate::reports::{HandleFields, RequestFields, StepReport};
use crate::settings::EndpointSettings;
use bus_endpoint::{BusEndpoint, BusStep};
use mctp_control::ControlPacket;
use mctp_packet::{
    BASELINE_UNIT, Body, Eid, MAX_PACKET_BYTES, MAX_PACKETS, Memory, Moment, NULL_EID, Route,
    packet_at, write,
};
use needleoat_forms::{AnswerFields, CommandFields, put_answer_of};
use pldm_endpoint::{AnswerRefusal, CommandHandle, Endpoint, MessageStep, ReceiveRefusal};
use pldm_responder::{Bounds, MessageOutcome, ResponderSettings};
use pldm_wire::{Answer, Command, INSTANCE_IDS};
use std::alloc::Global;

/// A new endpoint with these settings, in a place of its own, as [`made`] makes it. Where there is no memory for its
/// place, it is not kept.
pub(crate) fn start(
    alloc: Global,
    own: Option<Eid>,
    keeping: ResponderSettings,
    settings: &EndpointSettings,
    now: Moment,
) -> Result<Box<BusEndpoint, Global>, Memory>
    requires setup { IsSetup settings.now }
    requires own { own ≡ first_eid settings.now }
    requires keeping { keeping ≡ keeping_in settings.now }
    ensures { IfOk result (λ made. IsMade settings.now now made.value) }
{
    let made = made(alloc, own, keeping, settings, now)?;
    Ok(Box::new(alloc, made)?)
}

/// A new endpoint with these settings. `own` is its endpoint ID at first, and `keeping` is how it keeps answers, both
/// as the settings say. At any start but the first it is busy for the keeping time. What answers its control messages,
/// where they are answered, has a place of its own; where there is no memory for it, nothing is kept.
#[tactic(auto, using(crate::proofs::MadeEndpoints::one_at_start))]
pub(crate) fn made(
    alloc: Global,
    own: Option<Eid>,
    keeping: ResponderSettings,
    settings: &EndpointSettings,
    now: Moment,
) -> Result<BusEndpoint, Memory>
    requires setup { IsSetup settings.now }
    requires own { own ≡ first_eid settings.now }
    requires keeping { keeping ≡ keeping_in settings.now }
    ensures { IfOk result (λ made. IsMade settings.now now made) }
{
    let control = settings.control();
    let endpoint = started(alloc, own, keeping, settings, now);
    let Some(made) = BusEndpoint::new(alloc, endpoint, control)? else {
        unreachable!(); // both have one endpoint ID
    };
    Ok(made)
}

/// The endpoint without what answers its control messages.
fn started(
    alloc: Global,
    own: Option<Eid>,
    keeping: ResponderSettings,
    settings: &EndpointSettings,
    now: Moment,
) -> Endpoint
    requires own { own ≡ first_eid settings.now }
    requires keeping { keeping ≡ keeping_in settings.now }
    ensures { IsStarted settings.now now result }
{
    let bounds = Bounds {
        sources: settings.sources as usize,
        open_messages: settings.open_messages as usize,
    };
    let max_pending = settings.pending_commands as usize;
    let handed_on = settings.handed_on();
    let mut endpoint = Endpoint::new(alloc, own, keeping, handed_on, bounds, max_pending);
    if settings.first_start {
        endpoint.pass_time(now);
    } else {
        endpoint.restart(now);
    }
    endpoint
}

/// The moment, where it may come next.
pub(crate) fn next_moment(endpoint: &BusEndpoint, now_ms: u64) -> Option<Moment>
    ensures some { is_some result ≡ is_next now_ms endpoint.now }
    ensures value { IfSome result (λ now. now ≡ now_ms) }
    ensures later { IfSome result (λ now. (held_in endpoint.now.endpoint).last ≤ now) }
{
    let now = Moment::new(now_ms)?;
    if now < endpoint.endpoint().last_moment() {
        return None;
    }
    Some(now)
}

/// Restarts at a moment: 0, or why not.
pub(crate) fn restart(endpoint: &mut BusEndpoint, now_ms: u64) -> u8
    ensures refusal { result ≡ refusal_at now_ms (Some endpoint.old) }
    ensures left { IsLeftByRestart now_ms result endpoint.old endpoint.new }
{
    let Some(now) = next_moment(endpoint, now_ms) else {
        return BAD_MOMENT;
    };
    endpoint.restart(now);
    0
}

/// Receives the bytes of a packet.
pub(crate) fn receive(
    endpoint: &mut BusEndpoint,
    now_ms: u64,
    packet: &[u8],
    command: &mut CommandFields,
    packets: &mut [[u8; MAX_PACKET_BYTES]; MAX_PACKETS],
) -> StepReport
    ensures report { ReportsPacketIn now_ms packet.now result packets.new endpoint.old }
    ensures command { HasCommand result.kind (pending_under result.handle endpoint.new) command.old command.new }
    ensures left { IsLeftByPacket now_ms packet.now result.kind endpoint.old endpoint.new }
{
    let Some(now) = next_moment(endpoint, now_ms) else {
        return StepReport::without(STEP_REFUSED, BAD_MOMENT);
    };
    let mut reply = Body::new();
    match endpoint.receive_message(now, packet, &mut reply) {
        Ok(BusStep::Control(answer)) => control_report(&answer, packets),
        Ok(BusStep::Pldm(step)) => {
            if let MessageStep::Perform(handle) = &step {
                put_command(endpoint, handle, command);
            }
            step_report(&step, &reply, packets)
        }
        Err(refusal) => StepReport::without(STEP_REFUSED, refusal_number(refusal)),
    }
}

/// The report of what becomes of a packet as a message of PLDM, with the packets of `reply`, the message that answers.
pub(crate) fn step_report(
    step: &MessageStep,
    reply: &Body,
    packets: &mut [[u8; MAX_PACKET_BYTES]; MAX_PACKETS],
) -> StepReport
    ensures report { ReportsStep (stepping reply.now.items step.now) result packets.new }
    ensures kind { 1 ≤ result.kind }
    ensures perform { result.kind ≡ STEP_PERFORM → IsPerform step.now }
{
    match step {
        MessageStep::Perform(handle) => StepReport::asking(STEP_PERFORM, handle),
        MessageStep::Respond(handle) => StepReport::asking(STEP_RESPOND, handle),
        MessageStep::Done(taken) => report_of(taken, reply, packets),
    }
}

/// The report of a packet that answers a control message.
pub(crate) fn control_report(
    answer: &ControlPacket,
    packets: &mut [[u8; MAX_PACKET_BYTES]; MAX_PACKETS],
) -> StepReport
    ensures { ReportsControl answer.now.items result packets.new }
{
    let length = put_front(answer, &mut packets[0]);
    StepReport {
        kind: STEP_CONTROL,
        reason: 0,
        fresh: false,
        changed: false,
        count: 1,
        lengths: [length, 0, 0, 0, 0],
        handle: HandleFields::none(),
    }
}

/// Puts a packet in front of a room, and returns its length.
fn put_front(packet: &[u8], room: &mut [u8; MAX_PACKET_BYTES]) -> u32
    requires { length packet.now ≤ MAX_PACKET_BYTES }
    ensures { IsInFront (Some packet.now) result room.new }
{
    room[..packet.len()].copy_from_slice(packet);
    packet.len() as u32
}

/// The number that says why a packet was refused.
pub(crate) fn refusal_number(refusal: ReceiveRefusal) -> u8
    ensures { result ≡ number_of_refusal refusal }
{
    match refusal {
        ReceiveRefusal::Performing => OUT_OF_TURN,
        ReceiveRefusal::BeingPerformed => BEING_PERFORMED,
        ReceiveRefusal::Full => TOO_MANY_COMMANDS,
        ReceiveRefusal::Sources => TOO_MANY_SOURCES,
        ReceiveRefusal::OpenMessages => TOO_MANY_OPEN_MESSAGES,
        ReceiveRefusal::Memory(_) => NO_MEMORY,
    }
}

/// Puts the fields of the command that is pending under this handle.
pub(crate) fn put_command(
    endpoint: &BusEndpoint,
    handle: &CommandHandle,
    fields: &mut CommandFields,
)
    requires { IsOfCommand (pending_at endpoint.now.endpoint.pending handle.now) }
    ensures { AreOf (pending_at endpoint.now.endpoint.pending handle.now) fields.new }
{
    match endpoint.endpoint().command(handle) {
        Some(command) => fields.set(0, command),
        None => unreachable!(),
    }
}

/// Hands in the device's answer to the command that is pending under a handle. The message that answers the request is
/// put into `reply`. An `Err` has the number that says why the answer was refused.
pub(crate) fn answer(
    endpoint: &mut BusEndpoint,
    handle: &HandleFields,
    fields: &AnswerFields,
    reply: &mut Body,
) -> Result<MessageOutcome, u8>
    ensures outcome { with_packets reply.new.items result ≡ answer_outcome handle.now fields.now endpoint.old }
    ensures left { IsLeftByAnswer handle.now fields.now endpoint.old endpoint.new }
{
    let Some(handle) = handle.handle() else {
        return Err(NOT_PENDING);
    };
    let Some(command) = endpoint.endpoint().command(&handle) else {
        return Err(unanswered(endpoint, &handle));
    };
    let mut answer = Answer::SetTid;
    put_given(command, fields, &mut answer)?;
    match endpoint.answer_message(&handle, &answer, reply) {
        Ok(taken) => Ok(taken),
        Err(_) => unreachable!(),
    }
}

/// Why there is no command to be answered under this handle: nothing is pending there, or a request that was handed on.
pub(crate) fn unanswered(endpoint: &BusEndpoint, handle: &CommandHandle) -> u8
    ensures { result ≡ unanswered (pending_at endpoint.now.endpoint.pending handle.now) }
{
    match endpoint.endpoint().request(handle) {
        Some(_) => NOT_ITS_ANSWER,
        None => NOT_PENDING,
    }
}

/// Puts the request that is pending under a handle. The result is whether one is.
pub(crate) fn put_request(
    endpoint: &BusEndpoint,
    handle: &HandleFields,
    fields: &mut RequestFields,
) -> bool
    ensures { HasRequest result (pending_under handle.now endpoint.now) fields.old fields.new }
{
    let Some(handle) = handle.handle() else {
        return false;
    };
    match endpoint.endpoint().request(&handle) {
        Some(request) => {
            fields.set(&request);
            true
        }
        None => false,
    }
}

/// Hands in the device's response to the request that is pending under a handle, which was handed on as bytes. The
/// message that answers it is put into `reply`. An `Err` has the number that says why the response was refused.
pub(crate) fn answer_bytes(
    endpoint: &mut BusEndpoint,
    handle: &HandleFields,
    code: u8,
    rest: &[u8],
    reply: &mut Body,
) -> Result<MessageOutcome, u8>
    ensures outcome { with_packets reply.new.items result
        ≡ response_outcome handle.now code rest.now endpoint.old }
    ensures left { IsLeftByResponse handle.now code rest.now endpoint.old endpoint.new }
{
    let Some(handle) = handle.handle() else {
        return Err(NOT_PENDING);
    };
    match endpoint.answer_bytes_message(&handle, code, rest, reply) {
        Ok(taken) => Ok(taken),
        Err(AnswerRefusal::NotPending) => Err(NOT_PENDING),
        Err(AnswerRefusal::OtherCommand) => Err(NOT_ITS_ANSWER),
        Err(AnswerRefusal::TooLong) => Err(OUT_OF_RANGE),
    }
}

/// The report of an answer that was handed in, with the packets of `reply`, the message that answers.
pub(crate) fn report(
    given: &Result<MessageOutcome, u8>,
    reply: &Body,
    packets: &mut [[u8; MAX_PACKET_BYTES]; MAX_PACKETS],
) -> StepReport
    ensures { ReportsGiven (with_packets reply.now.items given.now) result packets.new }
{
    match given {
        Ok(taken) => report_of(taken, reply, packets),
        Err(number) => StepReport::without(STEP_REFUSED, *number),
    }
}

/// Puts the answer that these fields are to a command in the place of what `given` holds. An `Err` has the number that
/// says why they are none.
// Not inlined: the stack that making an answer needs is free again before the answer is handed in.
#[inline(never)]
pub(crate) fn put_given(
    command: &Command,
    fields: &AnswerFields,
    given: &mut Answer,
) -> Result<(), u8>
    ensures answer { OnOk result (given_to command.now fields.now ≡ Ok given.new) }
    ensures kind { OnOk result (IsAnswerTo (kind_of command.now) given.new) }
    ensures number { IfErr result (λ number. given_to command.now fields.now ≡ Err number) }
{
    if fields.instance_id >= INSTANCE_IDS {
        return Err(OUT_OF_RANGE);
    }
    if put_answer_of(fields, given).is_none() {
        return Err(OUT_OF_RANGE);
    }
    let kind = command.kind();
    if fields.pldm_type != kind.pldm_type || fields.command != kind.command {
        return Err(NOT_ITS_ANSWER);
    }
    Ok(())
}

/// The endpoint ID that it has: 0 where it has none.
pub(crate) fn eid(endpoint: &BusEndpoint) -> u8
    ensures { result ≡ endpoint.now.endpoint.end.own }
{
    match endpoint.endpoint().own() {
        Some(eid) => eid.get(),
        None => NULL_EID,
    }
}

/// The report of what becomes of a packet, with the packets of `reply`, the message that answers.
fn report_of(
    taken: &MessageOutcome,
    reply: &Body,
    rooms: &mut [[u8; MAX_PACKET_BYTES]; MAX_PACKETS],
) -> StepReport
    ensures report { ReportsOutcome (answering reply.now.items taken.now) result rooms.new }
    ensures kind { 1 ≤ result.kind }
    ensures other { result.kind ≤ 3 }
{
    match taken {
        MessageOutcome::Dropped(reason) => StepReport::without(STEP_DROPPED, reason.number()),
        MessageOutcome::Partial => StepReport::without(STEP_PARTIAL, 0),
        MessageOutcome::Answered {
            fresh,
            changed,
            route,
        } => StepReport {
            kind: STEP_ANSWERED,
            reason: 0,
            fresh: *fresh,
            changed: *changed,
            count: reply.len().div_ceil(BASELINE_UNIT) as u32,
            lengths: put_packets(route, reply, rooms),
            handle: HandleFields::none(),
        },
    }
}

/// Puts the packets of a message in front of the rooms, and returns their lengths, 0 past the last one.
fn put_packets(
    route: &Route,
    message: &[u8],
    rooms: &mut [[u8; MAX_PACKET_BYTES]; MAX_PACKETS],
) -> [u32; MAX_PACKETS]
    ensures { ArePackets (written_packets route.now message.now) result rooms.new }
{
    let first = put_packet(route, message, 0, &mut rooms[0]);
    let second = put_packet(route, message, 1, &mut rooms[1]);
    let third = put_packet(route, message, 2, &mut rooms[2]);
    let fourth = put_packet(route, message, 3, &mut rooms[3]);
    let fifth = put_packet(route, message, 4, &mut rooms[4]);
    [first, second, third, fourth, fifth]
}

/// Puts packet `index` of a message in front of a room, where there is one, and returns its length, else 0.
// Not inlined: it is called five times, and its packet is then on the stack only once.
#[inline(never)]
fn put_packet(route: &Route, message: &[u8], index: usize, room: &mut [u8; MAX_PACKET_BYTES]) -> u32
    ensures { IsInFront (slice_get (written_packets route.now message.now) index) result room.new }
{
    match packet_at(route, message, index) {
        Some(packet) => write(&packet, room) as u32,
        None => 0,
    }
}
