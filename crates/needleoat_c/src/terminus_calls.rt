//! The C calls on an end that answers and asks, as `include/needleoat.h` declares them.

ghost use Rattle.std.specs.Prelude.{◌≡◌, ◌≢◌, false, true};
ghost use Rattle.needleoat_forms.specs.Written.{IsWritten};
ghost use Rattle.needleoat_c.specs.Endpoints.{HasCommand, HasRequest, IsLeftByAnswer, IsLeftByResponse, ReportsAnswer, ReportsResponse};
ghost use Rattle.needleoat_c.specs.Requesters.{ReportsDeadline, ReportsProgress, asked_in, asked_with, holding, opened_by, packet_of, progress_of, ticked_by};
ghost use Rattle.needleoat_c.specs.Termini.{IsAskingLeft, IsGivenTo, IsLeft, IsLeftByComing, IsLeftByRestart, IsNew, IsUpheld, ReportsComing, ReportsDue, ReportsMaking, ReportsOpening, answering_of, pending, refusal_at, requester_of};

use crate::kinds::{STATUS_UNKNOWN, STEP_REFUSED};
use crate::refusals::{ALREADY_THERE, BAD_MOMENT, NO_MEMORY, NOTHING_THERE, OUT_OF_RANGE};
use crate::reports::{
    ComingReport, DueReport, HandleFields, OpeningReport, RequestFields, StatusReport, StepReport,
};
use crate::settings::{EndpointSettings, PeerSettings};
use crate::terminus_handle::TerminusForC;
use crate::{endpoint, terminus};
use mctp_packet::{Body, MAX_MESSAGE_BYTES, MAX_PACKET_BYTES, MAX_PACKETS, Moment};
use needleoat_forms::{AnswerFields, CommandFields};
use std::alloc::Global;

/// Makes an end that answers with these settings, as [`needleoat_endpoint_new`] does, and asks this peer, nothing before
/// the moment `rest_ms`: 0, or why not. Where there was a requester at this endpoint before, that is twice the keeping
/// time after now.
///
/// [`needleoat_endpoint_new`]: crate::needleoat_endpoint_new
#[unsafe(no_mangle)]
pub extern "C" fn needleoat_terminus_new(
    alloc: Global,
    settings: &EndpointSettings,
    peer: &PeerSettings,
    now_ms: u64,
    rest_ms: u64,
    terminus: &mut TerminusForC,
) -> u8
    requires { IsUpheld terminus.old }
    ensures upheld { IsUpheld terminus.new }
    ensures number { ReportsMaking settings.now peer.now now_ms rest_ms terminus.old.is_live result }
    ensures made { result ≡ 0 → IsNew settings.now peer.now now_ms rest_ms terminus.new.handle.held }
    ensures refused { result ≢ 0 → terminus.new.handle.held ≡ terminus.old.handle.held }
{
    if terminus.is_live {
        return ALREADY_THERE;
    }
    let (Some(eids), Some(keeping)) = (settings.eids(), settings.keeping()) else {
        return OUT_OF_RANGE;
    };
    let Some(peer) = peer.peer(eids.first) else {
        return OUT_OF_RANGE;
    };
    let (Some(now), Some(rest)) = (Moment::new(now_ms), Moment::new(rest_ms)) else {
        return BAD_MOMENT;
    };
    match terminus::start(alloc, eids.first, keeping, settings, peer, now, rest) {
        Ok(inside) => {
            terminus.handle.put(inside);
            terminus.is_live = true;
            0
        }
        Err(_) => NO_MEMORY,
    }
}

/// Receives the bytes of a packet that came at a moment. Those of an answer go to the requester, where there is one, and
/// all others to the answering end; the report of that half is as from [`needleoat_requester_receive`] and
/// [`needleoat_endpoint_receive`], with what that puts into `command` and `packets`.
///
/// [`needleoat_requester_receive`]: crate::needleoat_requester_receive
/// [`needleoat_endpoint_receive`]: crate::needleoat_endpoint_receive
#[unsafe(no_mangle)]
pub extern "C" fn needleoat_terminus_receive(
    alloc: Global,
    terminus: &mut TerminusForC,
    now_ms: u64,
    packet: &[u8],
    command: &mut CommandFields,
    packets: &mut [[u8; MAX_PACKET_BYTES]; MAX_PACKETS],
) -> ComingReport
    requires { IsUpheld terminus.old }
    ensures upheld { IsUpheld terminus.new }
    ensures report { ReportsComing now_ms packet.now result packets.new terminus.old.handle.held }
    ensures command { HasCommand result.step.kind (pending result.step.handle terminus.new.handle.held)
        command.old command.new }
    ensures left { IsLeft (IsLeftByComing now_ms packet.now result)
        terminus.old.handle.held terminus.new.handle.held }
{
    if !terminus.is_live {
        return ComingReport::refused(false, NOTHING_THERE);
    }
    let mut inside = terminus.handle.take(alloc);
    let report = terminus::receive(&mut inside, now_ms, packet, command, packets);
    terminus.handle.put(inside);
    report
}

/// Hands in the device's answer to the command that is pending under this handle, as [`needleoat_endpoint_answer`] does.
///
/// [`needleoat_endpoint_answer`]: crate::needleoat_endpoint_answer
#[unsafe(no_mangle)]
pub extern "C" fn needleoat_terminus_answer(
    alloc: Global,
    terminus: &mut TerminusForC,
    handle: &HandleFields,
    answer: &AnswerFields,
    packets: &mut [[u8; MAX_PACKET_BYTES]; MAX_PACKETS],
) -> StepReport
    requires { IsUpheld terminus.old }
    ensures upheld { IsUpheld terminus.new }
    ensures report { ReportsAnswer handle.now answer.now result packets.new (answering_of terminus.old.handle.held) }
    ensures left { IsLeft (IsGivenTo (IsLeftByAnswer handle.now answer.now))
        terminus.old.handle.held terminus.new.handle.held }
{
    if !terminus.is_live {
        return StepReport::without(STEP_REFUSED, NOTHING_THERE);
    }
    let mut reply = Body::new();
    let mut inside = terminus.handle.take(alloc);
    let given = terminus::answer(&mut inside, handle, answer, &mut reply);
    terminus.handle.put(inside);
    endpoint::report(&given, &reply, packets)
}

/// Puts the request that is pending under this handle into `request`, as [`needleoat_endpoint_request`] does.
///
/// [`needleoat_endpoint_request`]: crate::needleoat_endpoint_request
#[unsafe(no_mangle)]
pub extern "C" fn needleoat_terminus_request(
    alloc: Global,
    terminus: &mut TerminusForC,
    handle: &HandleFields,
    request: &mut RequestFields,
) -> bool
    requires { IsUpheld terminus.old }
    ensures upheld { IsUpheld terminus.new }
    ensures request { HasRequest result (pending handle.now terminus.old.handle.held) request.old request.new }
    ensures left { terminus.new.handle.held ≡ terminus.old.handle.held }
{
    if !terminus.is_live {
        return false;
    }
    let inside = terminus.handle.take(alloc);
    let is_pending = endpoint::put_request(inside.answering(), handle, request);
    terminus.handle.put(inside);
    is_pending
}

/// Hands in the device's response to the request that is pending under this handle, as
/// [`needleoat_endpoint_answer_bytes`] does.
///
/// [`needleoat_endpoint_answer_bytes`]: crate::needleoat_endpoint_answer_bytes
#[unsafe(no_mangle)]
pub extern "C" fn needleoat_terminus_answer_bytes(
    alloc: Global,
    terminus: &mut TerminusForC,
    handle: &HandleFields,
    code: u8,
    rest: &[u8],
    packets: &mut [[u8; MAX_PACKET_BYTES]; MAX_PACKETS],
) -> StepReport
    requires { IsUpheld terminus.old }
    ensures upheld { IsUpheld terminus.new }
    ensures report { ReportsResponse handle.now code rest.now result packets.new
        (answering_of terminus.old.handle.held) }
    ensures left { IsLeft (IsGivenTo (IsLeftByResponse handle.now code rest.now))
        terminus.old.handle.held terminus.new.handle.held }
{
    if !terminus.is_live {
        return StepReport::without(STEP_REFUSED, NOTHING_THERE);
    }
    let mut reply = Body::new();
    let mut inside = terminus.handle.take(alloc);
    let given = terminus::answer_bytes(&mut inside, handle, code, rest, &mut reply);
    terminus.handle.put(inside);
    endpoint::report(&given, &reply, packets)
}

/// Opens a request to the peer for the command of a request message, whose instance ID is not looked at. Its packet is
/// to be sent then.
#[unsafe(no_mangle)]
pub extern "C" fn needleoat_terminus_open(
    alloc: Global,
    terminus: &mut TerminusForC,
    now_ms: u64,
    request: &[u8],
) -> OpeningReport
    requires { IsUpheld terminus.old }
    ensures upheld { IsUpheld terminus.new }
    ensures report { ReportsOpening now_ms (asked_in request.now) result terminus.old.handle.held }
    ensures left { IsLeft (IsAskingLeft (opened_by now_ms (asked_in request.now) result.refusal))
        terminus.old.handle.held terminus.new.handle.held }
{
    if !terminus.is_live {
        return OpeningReport::refused(NOTHING_THERE);
    }
    let mut inside = terminus.handle.take(alloc);
    let report = terminus::open(&mut inside, now_ms, request);
    terminus.handle.put(inside);
    report
}

/// Opens a request of any PLDM type to the peer: of this type, 0 to 63, and this command, with this data, at most 316
/// bytes. Its packet is to be sent then.
#[unsafe(no_mangle)]
pub extern "C" fn needleoat_terminus_open_request(
    alloc: Global,
    terminus: &mut TerminusForC,
    now_ms: u64,
    pldm_type: u8,
    command: u8,
    rest: &[u8],
) -> OpeningReport
    requires { IsUpheld terminus.old }
    ensures upheld { IsUpheld terminus.new }
    ensures report { ReportsOpening now_ms (asked_with pldm_type command rest.now) result terminus.old.handle.held }
    ensures left { IsLeft (IsAskingLeft (opened_by now_ms (asked_with pldm_type command rest.now) result.refusal))
        terminus.old.handle.held terminus.new.handle.held }
{
    if !terminus.is_live {
        return OpeningReport::refused(NOTHING_THERE);
    }
    let mut inside = terminus.handle.take(alloc);
    let report = terminus::open_request(&mut inside, now_ms, pldm_type, command, rest);
    terminus.handle.put(inside);
    report
}

/// Lists the requests that are to be sent again and those that are given up at a moment: 0, or why not. Where it is not
/// 0, `due` stays as it was.
#[unsafe(no_mangle)]
pub extern "C" fn needleoat_terminus_tick(
    alloc: Global,
    terminus: &mut TerminusForC,
    now_ms: u64,
    due: &mut DueReport,
) -> u8
    requires { IsUpheld terminus.old }
    ensures upheld { IsUpheld terminus.new }
    ensures refusal { result ≡ refusal_at now_ms terminus.old.handle.held }
    ensures due { result ≡ 0 → ReportsDue now_ms due.new terminus.old.handle.held }
    ensures refused { result ≢ 0 → due.new ≡ due.old }
    ensures left { IsLeft (IsAskingLeft (ticked_by now_ms result)) terminus.old.handle.held terminus.new.handle.held }
{
    if !terminus.is_live {
        return NOTHING_THERE;
    }
    let mut inside = terminus.handle.take(alloc);
    let refusal = terminus::tick(&mut inside, now_ms, due);
    terminus.handle.put(inside);
    refusal
}

/// Tells how long the caller may sleep: whether there is a moment from which on `needleoat_terminus_tick` finds
/// something due, and nothing before, and which. Where there is none, `deadline_ms` stays as it was.
#[unsafe(no_mangle)]
pub extern "C" fn needleoat_terminus_next_deadline(
    alloc: Global,
    terminus: &mut TerminusForC,
    deadline_ms: &mut u64,
) -> bool
    requires { IsUpheld terminus.old }
    ensures upheld { IsUpheld terminus.new }
    ensures deadline { ReportsDeadline (holding (requester_of terminus.old.handle.held)) result
        deadline_ms.old deadline_ms.new }
    ensures left { terminus.new.handle.held ≡ terminus.old.handle.held }
{
    if !terminus.is_live {
        return false;
    }
    let inside = terminus.handle.take(alloc);
    let found = terminus::next_deadline(&inside, deadline_ms);
    terminus.handle.put(inside);
    found
}

/// Writes packet `index` of a request that is remembered, counted from 0, and returns its length in bytes, else 0.
#[unsafe(no_mangle)]
pub extern "C" fn needleoat_terminus_packet(
    alloc: Global,
    terminus: &mut TerminusForC,
    number: u64,
    index: u32,
    out: &mut [u8; MAX_PACKET_BYTES],
) -> u32
    requires { IsUpheld terminus.old }
    ensures upheld { IsUpheld terminus.new }
    ensures packet { IsWritten (packet_of number index (holding (requester_of terminus.old.handle.held))) result
        out.old out.new }
    ensures left { terminus.new.handle.held ≡ terminus.old.handle.held }
{
    if !terminus.is_live {
        return 0;
    }
    let inside = terminus.handle.take(alloc);
    let length = terminus::packet(&inside, number, index, out);
    terminus.handle.put(inside);
    length
}

/// Reports how a request stands, and writes the message that answered it.
#[unsafe(no_mangle)]
pub extern "C" fn needleoat_terminus_status(
    alloc: Global,
    terminus: &mut TerminusForC,
    number: u64,
    message: &mut [u8; MAX_MESSAGE_BYTES],
) -> StatusReport
    requires { IsUpheld terminus.old }
    ensures upheld { IsUpheld terminus.new }
    ensures report { ReportsProgress (progress_of number (holding (requester_of terminus.old.handle.held))) result
        message.old message.new }
    ensures left { terminus.new.handle.held ≡ terminus.old.handle.held }
{
    if !terminus.is_live {
        return StatusReport::without(STATUS_UNKNOWN);
    }
    let inside = terminus.handle.take(alloc);
    let report = terminus::status(&inside, number, message);
    terminus.handle.put(inside);
    report
}

/// Restarts both halves at a moment: 0, or why not. The answering end is as after [`needleoat_endpoint_restart`]; the
/// open requests are forgotten, and none is opened until twice the keeping time has passed.
///
/// [`needleoat_endpoint_restart`]: crate::needleoat_endpoint_restart
#[unsafe(no_mangle)]
pub extern "C" fn needleoat_terminus_restart(
    alloc: Global,
    terminus: &mut TerminusForC,
    now_ms: u64,
) -> u8
    requires { IsUpheld terminus.old }
    ensures upheld { IsUpheld terminus.new }
    ensures refusal { result ≡ refusal_at now_ms terminus.old.handle.held }
    ensures left { IsLeft (IsLeftByRestart now_ms result) terminus.old.handle.held terminus.new.handle.held }
{
    if !terminus.is_live {
        return NOTHING_THERE;
    }
    let mut inside = terminus.handle.take(alloc);
    let refusal = terminus::restart(&mut inside, now_ms);
    terminus.handle.put(inside);
    refusal
}

/// Frees what is behind the handle, where there is something. The handle is then as one of zeros.
#[unsafe(no_mangle)]
pub extern "C" fn needleoat_terminus_free(alloc: Global, terminus: &mut TerminusForC)
    requires { IsUpheld terminus.old }
    ensures upheld { IsUpheld terminus.new }
    ensures freed { terminus.new.is_live ≡ false }
{
    if terminus.is_live {
        drop(terminus.handle.take(alloc));
        terminus.is_live = false;
    }
}
