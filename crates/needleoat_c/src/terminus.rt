//! The work of each call on the end behind a handle that answers and asks.

ghost use Rattle.std.specs.Prelude.{◌≡◌, ◌≢◌, ◌≤◌, Some, IfOk, IfSome, is_some};
ghost use Rattle.pldm_endpoint.specs.TwoSteps.{held_in};
ghost use Rattle.pldm_terminus.specs.Askings.{CameBefore};
ghost use Rattle.needleoat_forms.specs.Written.{IsWritten};
ghost use Rattle.needleoat_c.specs.Endpoints.{HasCommand, IsLeftByAnswer, IsLeftByResponse, answer_outcome, pending_under, response_outcome, with_packets};
ghost use Rattle.needleoat_c.specs.Requesters.{ReportsDeadline, ReportsProgress, asked_in, asked_with, holding, opened_by, packet_of, progress_of, ticked_by};
ghost use Rattle.needleoat_c.specs.Settings.{IsSetup, first_eid, keeping_in};
ghost use Rattle.needleoat_c.specs.Termini.{IsAskingLeft, IsGivenTo, IsLeftByComing, IsLeftByRestart, IsTerminus, ReportsComingIn, ReportsDue, ReportsOpeningIn, comes_to_asking, fault_number, is_next, refusal_at};

use crate::kinds::STATUS_UNKNOWN;
use crate::refusals::{
    BAD_MOMENT, NO_COMMAND, NO_EID, NOT_ITS_ANSWER, NOT_PENDING, OUT_OF_RANGE, RESTING,
};
use crate::reports::{ComingReport, DueReport, HandleFields, OpeningReport, StatusReport};
use crate::settings::{EndpointSettings, Peer};
use crate::{endpoint, requester};
use bus_endpoint::BusStep;
use mctp_packet::{Body, Eid, MAX_MESSAGE_BYTES, MAX_PACKET_BYTES, MAX_PACKETS, Memory, Moment};
use needleoat_forms::{AnswerFields, CommandFields};
use pldm_endpoint::{AnswerRefusal, MessageStep};
use pldm_responder::{MessageOutcome, ResponderSettings};
use pldm_terminus::{AskFault, Terminus, TerminusStep, is_answer};
use pldm_wire::Answer;
use std::alloc::Global;

/// A new end with these settings, in a place of its own, that asks this peer, nothing before the moment `rest`. `own`
/// is its endpoint ID at first, and `keeping` is how it keeps answers, both as the settings say. Where there is no
/// memory for it, nothing is kept.
#[tactic(auto, using(crate::proofs::MadeEndpoints::own_at_start))]
pub(crate) fn start(
    alloc: Global,
    own: Option<Eid>,
    keeping: ResponderSettings,
    settings: &EndpointSettings,
    peer: Peer,
    now: Moment,
    rest: Moment,
) -> Result<Box<Terminus, Global>, Memory>
    requires setup { IsSetup settings.now }
    requires own { own ≡ first_eid settings.now }
    requires keeping { keeping ≡ keeping_in settings.now }
    ensures { IfOk result (λ made. IsTerminus settings.now peer.device peer.timing peer.pace now rest made.value) }
{
    let answering = endpoint::made(alloc, own, keeping, settings, now)?;
    let made = Terminus::with_pace(alloc, answering, peer.device, peer.timing, peer.pace, rest);
    Ok(Box::new(alloc, made)?)
}

/// The moment, where it may come next.
fn next_moment(terminus: &Terminus, now_ms: u64) -> Option<Moment>
    ensures some { is_some result ≡ is_next now_ms terminus.now }
    ensures value { IfSome result (λ now. now ≡ now_ms) }
    ensures answering { IfSome result (λ now. (held_in terminus.now.answering.endpoint).last ≤ now) }
    ensures asking { IfSome result (CameBefore terminus.now.asking.requester) }
{
    let now = endpoint::next_moment(terminus.answering(), now_ms)?;
    let Some(requester) = terminus.asking() else {
        return Some(now);
    };
    if now < requester.last_moment() {
        return None;
    }
    Some(now)
}

/// Restarts at a moment: 0, or why not.
pub(crate) fn restart(terminus: &mut Terminus, now_ms: u64) -> u8
    ensures refusal { result ≡ refusal_at now_ms (Some terminus.old) }
    ensures left { IsLeftByRestart now_ms result terminus.old terminus.new }
{
    let Some(now) = next_moment(terminus, now_ms) else {
        return BAD_MOMENT;
    };
    terminus.restart(now);
    0
}

/// Whether a packet comes to the requester.
fn comes_to_asking(terminus: &Terminus, packet: &[u8]) -> bool
    ensures { result ≡ comes_to_asking packet.now terminus.now }
{
    terminus.asking().is_some() && is_answer(packet)
}

/// Receives the bytes of a packet.
pub(crate) fn receive(
    terminus: &mut Terminus,
    now_ms: u64,
    packet: &[u8],
    command: &mut CommandFields,
    packets: &mut [[u8; MAX_PACKET_BYTES]; MAX_PACKETS],
) -> ComingReport
    ensures report { ReportsComingIn now_ms packet.now result packets.new terminus.old }
    ensures command { HasCommand result.step.kind (pending_under result.step.handle terminus.new.answering)
        command.old command.new }
    ensures left { IsLeftByComing now_ms packet.now result terminus.old terminus.new }
{
    let is_asking = comes_to_asking(terminus, packet);
    let Some(now) = next_moment(terminus, now_ms) else {
        return ComingReport::refused(is_asking, BAD_MOMENT);
    };
    let mut reply = Body::new();
    match terminus.receive_message(now, packet, &mut reply) {
        Ok(TerminusStep::Asking(got)) => ComingReport::asking(requester::report_of(got)),
        Ok(TerminusStep::Answering(BusStep::Control(answer))) => {
            ComingReport::answering(endpoint::control_report(&answer, packets))
        }
        Ok(TerminusStep::Answering(BusStep::Pldm(step))) => {
            if let MessageStep::Perform(handle) = &step {
                endpoint::put_command(terminus.answering(), handle, command);
            }
            ComingReport::answering(endpoint::step_report(&step, &reply, packets))
        }
        Err(refusal) => ComingReport::refused(is_asking, endpoint::refusal_number(refusal)),
    }
}

/// Hands in the device's answer to the command that is pending under a handle, as [`endpoint::answer`] does.
pub(crate) fn answer(
    terminus: &mut Terminus,
    handle: &HandleFields,
    fields: &AnswerFields,
    reply: &mut Body,
) -> Result<MessageOutcome, u8>
    ensures outcome { with_packets reply.new.items result
        ≡ answer_outcome handle.now fields.now terminus.old.answering }
    ensures left { IsGivenTo (IsLeftByAnswer handle.now fields.now) terminus.old terminus.new }
{
    let Some(handle) = handle.handle() else {
        return Err(NOT_PENDING);
    };
    let Some(command) = terminus.answering().endpoint().command(&handle) else {
        return Err(endpoint::unanswered(terminus.answering(), &handle));
    };
    let mut answer = Answer::SetTid;
    endpoint::put_given(command, fields, &mut answer)?;
    match terminus.answer_message(&handle, &answer, reply) {
        Ok(taken) => Ok(taken),
        Err(_) => unreachable!(),
    }
}

/// Hands in the device's response to the request that is pending under a handle, as [`endpoint::answer_bytes`] does.
pub(crate) fn answer_bytes(
    terminus: &mut Terminus,
    handle: &HandleFields,
    code: u8,
    rest: &[u8],
    reply: &mut Body,
) -> Result<MessageOutcome, u8>
    ensures outcome { with_packets reply.new.items result
        ≡ response_outcome handle.now code rest.now terminus.old.answering }
    ensures left { IsGivenTo (IsLeftByResponse handle.now code rest.now) terminus.old terminus.new }
{
    let Some(handle) = handle.handle() else {
        return Err(NOT_PENDING);
    };
    match terminus.answer_bytes_message(&handle, code, rest, reply) {
        Ok(taken) => Ok(taken),
        Err(AnswerRefusal::NotPending) => Err(NOT_PENDING),
        Err(AnswerRefusal::OtherCommand) => Err(NOT_ITS_ANSWER),
        Err(AnswerRefusal::TooLong) => Err(OUT_OF_RANGE),
    }
}

/// The number of a fault of opening.
fn fault_number(fault: AskFault) -> u8
    ensures number { result ≡ fault_number fault }
    ensures some { 1 ≤ result }
{
    match fault {
        AskFault::NoEid => NO_EID,
        AskFault::Resting => RESTING,
        AskFault::Open(fault) => requester::fault_number(fault),
    }
}

/// Opens a request to the peer for the command that a message carries.
pub(crate) fn open(terminus: &mut Terminus, now_ms: u64, request: &[u8]) -> OpeningReport
    ensures report { ReportsOpeningIn now_ms (asked_in request.now) result terminus.old }
    ensures left { IsAskingLeft (opened_by now_ms (asked_in request.now) result.refusal) terminus.old terminus.new }
{
    let Some(now) = next_moment(terminus, now_ms) else {
        return OpeningReport::refused(BAD_MOMENT);
    };
    let Some(command) = requester::command_in(request) else {
        return OpeningReport::refused(NO_COMMAND);
    };
    match terminus.open(now, &command) {
        Ok(opened) => OpeningReport::of(opened),
        Err(fault) => OpeningReport::refused(fault_number(fault)),
    }
}

/// Opens a request of any PLDM type to the peer: of this type and command, with this data.
pub(crate) fn open_request(
    terminus: &mut Terminus,
    now_ms: u64,
    pldm_type: u8,
    command: u8,
    rest: &[u8],
) -> OpeningReport
    ensures report { ReportsOpeningIn now_ms (asked_with pldm_type command rest.now) result terminus.old }
    ensures left { IsAskingLeft (opened_by now_ms (asked_with pldm_type command rest.now) result.refusal)
        terminus.old terminus.new }
{
    let Some(now) = next_moment(terminus, now_ms) else {
        return OpeningReport::refused(BAD_MOMENT);
    };
    let Some(kind) = requester::kind_of(pldm_type, command, rest.len()) else {
        return OpeningReport::refused(OUT_OF_RANGE);
    };
    match terminus.open_request(now, kind, rest) {
        Ok(opened) => OpeningReport::of(opened),
        Err(fault) => OpeningReport::refused(fault_number(fault)),
    }
}

/// Lists the requests that are due: 0, or why not.
pub(crate) fn tick(terminus: &mut Terminus, now_ms: u64, due: &mut DueReport) -> u8
    ensures refusal { result ≡ refusal_at now_ms (Some terminus.old) }
    ensures due { result ≡ 0 → ReportsDue now_ms due.new (Some terminus.old) }
    ensures refused { result ≢ 0 → due.new ≡ due.old }
    ensures left { IsAskingLeft (ticked_by now_ms result) terminus.old terminus.new }
{
    let Some(now) = next_moment(terminus, now_ms) else {
        return BAD_MOMENT;
    };
    let found = terminus.tick(now);
    due.again_count = requester::put_numbers(&mut due.again, &found.again);
    due.given_up_count = requester::put_numbers(&mut due.given_up, &found.given_up);
    0
}

/// Puts the moment from which on a tick finds something due in the place of what is there, and returns whether there is
/// one.
pub(crate) fn next_deadline(terminus: &Terminus, deadline_ms: &mut u64) -> bool
    ensures { ReportsDeadline (holding terminus.now.asking.requester) result deadline_ms.old deadline_ms.new }
{
    match terminus.asking() {
        Some(requester) => requester::next_deadline(requester, deadline_ms),
        None => false,
    }
}

/// Writes packet `index` of a request that is remembered, and returns its length, else 0.
pub(crate) fn packet(
    terminus: &Terminus,
    number: u64,
    index: u32,
    out: &mut [u8; MAX_PACKET_BYTES],
) -> u32
    ensures { IsWritten (packet_of number index (holding terminus.now.asking.requester)) result out.old out.new }
{
    match terminus.asking() {
        Some(requester) => requester::packet(requester, number, index, out),
        None => 0,
    }
}

/// Reports how a request stands, and writes the message that answered it.
pub(crate) fn status(
    terminus: &Terminus,
    number: u64,
    message: &mut [u8; MAX_MESSAGE_BYTES],
) -> StatusReport
    ensures { ReportsProgress (progress_of number (holding terminus.now.asking.requester)) result
        message.old message.new }
{
    match terminus.asking() {
        Some(requester) => requester::status(requester, number, message),
        None => StatusReport::without(STATUS_UNKNOWN),
    }
}
