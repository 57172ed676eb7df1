//! The C calls on an endpoint, as `include/needleoat.h` declares them.

ghost use Rattle.std.specs.Prelude.{◌≡◌, ◌≢◌, false, true};
ghost use Rattle.needleoat_c.specs.Endpoints.{HasCommand, HasRequest, IsLeft, IsLeftByAnswer, IsLeftByPacket, IsLeftByResponse, IsLeftByRestart, IsNew, IsUpheld, ReportsAnswer, ReportsMaking, ReportsPacket, ReportsResponse, eid_of, pending, refusal_at};

use crate::endpoint;
use crate::endpoint_handle::EndpointForC;
use crate::kinds::STEP_REFUSED;
use crate::refusals::{ALREADY_THERE, BAD_MOMENT, NO_MEMORY, NOTHING_THERE, OUT_OF_RANGE};
use crate::reports::{HandleFields, RequestFields, StepReport};
use crate::settings::EndpointSettings;
use mctp_packet::{Body, MAX_PACKET_BYTES, MAX_PACKETS, Moment, NULL_EID};
use needleoat_forms::{AnswerFields, CommandFields};
use std::alloc::Global;

/// Makes an endpoint with these settings: 0, or why not. No moment before `now_ms` may come then. It is busy for the
/// keeping time from `now_ms` on, unless this is the first start ever: a processor that was reset may have performed a
/// request before. In the busy time it performs nothing, or nothing that sets, as the settings say.
#[unsafe(no_mangle)]
pub extern "C" fn needleoat_endpoint_new(
    alloc: Global,
    settings: &EndpointSettings,
    now_ms: u64,
    endpoint: &mut EndpointForC,
) -> u8
    requires { IsUpheld endpoint.old }
    ensures upheld { IsUpheld endpoint.new }
    ensures number { ReportsMaking settings.now now_ms endpoint.old.is_live result }
    ensures made { result ≡ 0 → IsNew settings.now now_ms endpoint.new.handle.held }
    ensures refused { result ≢ 0 → endpoint.new.handle.held ≡ endpoint.old.handle.held }
{
    if endpoint.is_live {
        return ALREADY_THERE;
    }
    let (Some(eids), Some(keeping)) = (settings.eids(), settings.keeping()) else {
        return OUT_OF_RANGE;
    };
    let Some(now) = Moment::new(now_ms) else {
        return BAD_MOMENT;
    };
    match endpoint::start(alloc, eids.first, keeping, settings, now) {
        Ok(inside) => {
            endpoint.handle.put(inside);
            endpoint.is_live = true;
            0
        }
        Err(_) => NO_MEMORY,
    }
}

/// The endpoint ID of the endpoint: 0 where it has none yet, or where nothing is behind the handle.
#[unsafe(no_mangle)]
pub extern "C" fn needleoat_endpoint_eid(alloc: Global, endpoint: &mut EndpointForC) -> u8
    requires { IsUpheld endpoint.old }
    ensures upheld { IsUpheld endpoint.new }
    ensures eid { result ≡ eid_of endpoint.old.handle.held }
    ensures left { endpoint.new.handle.held ≡ endpoint.old.handle.held }
{
    if !endpoint.is_live {
        return NULL_EID;
    }
    let inside = endpoint.handle.take(alloc);
    let eid = endpoint::eid(&inside);
    endpoint.handle.put(inside);
    eid
}

/// Receives the bytes of a packet that came at a moment. Where the report says that a command is to be performed, its
/// fields are in `command`, and the report has its handle; where it says that a request is to be responded to, the
/// report has its handle, and [`needleoat_endpoint_request`] puts it; where it says that the packet is answered, the
/// packets of the answer are in front of the rooms of `packets`, and where it says that this is a control message, the
/// one packet that answers it. A control message may assign the endpoint ID: then the endpoint has that.
#[unsafe(no_mangle)]
pub extern "C" fn needleoat_endpoint_receive(
    alloc: Global,
    endpoint: &mut EndpointForC,
    now_ms: u64,
    packet: &[u8],
    command: &mut CommandFields,
    packets: &mut [[u8; MAX_PACKET_BYTES]; MAX_PACKETS],
) -> StepReport
    requires { IsUpheld endpoint.old }
    ensures upheld { IsUpheld endpoint.new }
    ensures report { ReportsPacket now_ms packet.now result packets.new endpoint.old.handle.held }
    ensures command { HasCommand result.kind (pending result.handle endpoint.new.handle.held) command.old command.new }
    ensures left { IsLeft (IsLeftByPacket now_ms packet.now result.kind)
        endpoint.old.handle.held endpoint.new.handle.held }
{
    if !endpoint.is_live {
        return StepReport::without(STEP_REFUSED, NOTHING_THERE);
    }
    let mut inside = endpoint.handle.take(alloc);
    let report = endpoint::receive(&mut inside, now_ms, packet, command, packets);
    endpoint.handle.put(inside);
    report
}

/// Hands in the device's answer to the command that is pending under this handle. The report has the
/// packets of the answer, or says why it was refused; the command then stays pending, where it is.
#[unsafe(no_mangle)]
pub extern "C" fn needleoat_endpoint_answer(
    alloc: Global,
    endpoint: &mut EndpointForC,
    handle: &HandleFields,
    answer: &AnswerFields,
    packets: &mut [[u8; MAX_PACKET_BYTES]; MAX_PACKETS],
) -> StepReport
    requires { IsUpheld endpoint.old }
    ensures upheld { IsUpheld endpoint.new }
    ensures report { ReportsAnswer handle.now answer.now result packets.new endpoint.old.handle.held }
    ensures left { IsLeft (IsLeftByAnswer handle.now answer.now) endpoint.old.handle.held endpoint.new.handle.held }
{
    if !endpoint.is_live {
        return StepReport::without(STEP_REFUSED, NOTHING_THERE);
    }
    let mut reply = Body::new();
    let mut inside = endpoint.handle.take(alloc);
    let given = endpoint::answer(&mut inside, handle, answer, &mut reply);
    endpoint.handle.put(inside);
    endpoint::report(&given, &reply, packets)
}

/// Puts the request that is pending under this handle into `request`, as it came: its PLDM type, its command and its
/// data. The result is whether one is pending there; else `request` is as before.
#[unsafe(no_mangle)]
pub extern "C" fn needleoat_endpoint_request(
    alloc: Global,
    endpoint: &mut EndpointForC,
    handle: &HandleFields,
    request: &mut RequestFields,
) -> bool
    requires { IsUpheld endpoint.old }
    ensures upheld { IsUpheld endpoint.new }
    ensures request { HasRequest result (pending handle.now endpoint.old.handle.held) request.old request.new }
    ensures left { endpoint.new.handle.held ≡ endpoint.old.handle.held }
{
    if !endpoint.is_live {
        return false;
    }
    let inside = endpoint.handle.take(alloc);
    let is_pending = endpoint::put_request(&inside, handle, request);
    endpoint.handle.put(inside);
    is_pending
}

/// Hands in the device's response to the request that is pending under this handle, which was handed on as bytes: its
/// completion code, and at most 315 bytes of data. The report has the packets of the answer, or says why the response
/// was refused; the request then stays pending, where it is.
#[unsafe(no_mangle)]
pub extern "C" fn needleoat_endpoint_answer_bytes(
    alloc: Global,
    endpoint: &mut EndpointForC,
    handle: &HandleFields,
    code: u8,
    rest: &[u8],
    packets: &mut [[u8; MAX_PACKET_BYTES]; MAX_PACKETS],
) -> StepReport
    requires { IsUpheld endpoint.old }
    ensures upheld { IsUpheld endpoint.new }
    ensures report { ReportsResponse handle.now code rest.now result packets.new endpoint.old.handle.held }
    ensures left { IsLeft (IsLeftByResponse handle.now code rest.now)
        endpoint.old.handle.held endpoint.new.handle.held }
{
    if !endpoint.is_live {
        return StepReport::without(STEP_REFUSED, NOTHING_THERE);
    }
    let mut reply = Body::new();
    let mut inside = endpoint.handle.take(alloc);
    let given = endpoint::answer_bytes(&mut inside, handle, code, rest, &mut reply);
    endpoint.handle.put(inside);
    endpoint::report(&given, &reply, packets)
}

/// Restarts the endpoint at a moment: 0, or why not. The kept answers, the messages that have begun and the pending
/// commands are forgotten, and the endpoint is busy for the keeping time from then on.
#[unsafe(no_mangle)]
pub extern "C" fn needleoat_endpoint_restart(
    alloc: Global,
    endpoint: &mut EndpointForC,
    now_ms: u64,
) -> u8
    requires { IsUpheld endpoint.old }
    ensures upheld { IsUpheld endpoint.new }
    ensures refusal { result ≡ refusal_at now_ms endpoint.old.handle.held }
    ensures left { IsLeft (IsLeftByRestart now_ms result) endpoint.old.handle.held endpoint.new.handle.held }
{
    if !endpoint.is_live {
        return NOTHING_THERE;
    }
    let mut inside = endpoint.handle.take(alloc);
    let refusal = endpoint::restart(&mut inside, now_ms);
    endpoint.handle.put(inside);
    refusal
}

/// Frees the endpoint, where there is one. The handle is then as one of zeros.
#[unsafe(no_mangle)]
pub extern "C" fn needleoat_endpoint_free(alloc: Global, endpoint: &mut EndpointForC)
    requires { IsUpheld endpoint.old }
    ensures upheld { IsUpheld endpoint.new }
    ensures freed { endpoint.new.is_live ≡ false }
{
    if endpoint.is_live {
        drop(endpoint.handle.take(alloc));
        endpoint.is_live = false;
    }
}
