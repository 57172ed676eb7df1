//! The C calls on a requester, as `include/needleoat.h` declares them.

ghost use Rattle.std.specs.Prelude.{◌≡◌, ◌≢◌, false, true};
ghost use Rattle.needleoat_forms.specs.Written.{IsWritten};
ghost use Rattle.needleoat_c.specs.Requesters.{HoldsAfter, IsNew, IsUpheld, MayNeedRoom, ReportsDeadline, ReportsDue, ReportsMaking, ReportsOpening, ReportsPacket, ReportsProgress, asked_in, asked_with, holding, opened_by, opening_at, packet_of, received_by, refusal_at, progress_of, ticked_by, unchanged};

use crate::kinds::{RECEIVING_REFUSED, STATUS_UNKNOWN};
use crate::refusals::{ALREADY_THERE, NO_MEMORY, NOTHING_THERE, OUT_OF_RANGE};
use crate::reports::{DueReport, OpeningReport, PacketReport, StatusReport};
use crate::requester;
use crate::requester_handle::RequesterForC;
use crate::settings::RequesterSettings;
use mctp_packet::{Eid, Keep, MAX_MESSAGE_BYTES, MAX_PACKET_BYTES};
use pldm_requester::{MAX_REMEMBERED, Requester, Timing};
use std::alloc::Global;

/// Makes a requester with these settings: 0, or why not.
#[unsafe(no_mangle)]
pub extern "C" fn needleoat_requester_new(
    alloc: Global,
    settings: &RequesterSettings,
    requester: &mut RequesterForC,
) -> u8
    requires { IsUpheld requester.old }
    ensures upheld { IsUpheld requester.new }
    ensures number { ReportsMaking settings.now requester.old.is_live result }
    ensures made { result ≡ 0 → IsNew settings.now requester.new.handle.held }
    ensures refused { result ≢ 0 → requester.new.handle.held ≡ requester.old.handle.held }
{
    if requester.is_live {
        return ALREADY_THERE;
    }
    let (Some(own), Some(device), Some(keep), Some(pace)) = (
        Eid::new(settings.own),
        Eid::new(settings.device),
        Keep::new(settings.keep_ms),
        settings.pace(),
    ) else {
        return OUT_OF_RANGE;
    };
    let timing = Timing {
        keep,
        timeout: settings.timeout_ms,
        tries: settings.tries,
    };
    let Ok(made) = Requester::with_pace(alloc, own, device, timing, pace) else {
        return OUT_OF_RANGE;
    };
    match Box::new(alloc, made) {
        Ok(inside) => {
            requester.handle.put(inside);
            requester.is_live = true;
            0
        }
        Err(_) => NO_MEMORY,
    }
}

/// Opens a request for the command of a request message, whose instance ID is not looked at. Its
/// packet is to be sent then.
#[unsafe(no_mangle)]
pub extern "C" fn needleoat_requester_open(
    alloc: Global,
    requester: &mut RequesterForC,
    now_ms: u64,
    request: &[u8],
) -> OpeningReport
    requires { IsUpheld requester.old }
    ensures upheld { IsUpheld requester.new }
    ensures report { ReportsOpening (opening_at now_ms (asked_in request.now)
        (holding requester.old.handle.held)) result }
    ensures memory { result.refusal ≡ NO_MEMORY → MayNeedRoom MAX_REMEMBERED (holding requester.old.handle.held) }
    ensures held { HoldsAfter (opened_by now_ms (asked_in request.now) result.refusal)
        requester.old.handle.held requester.new.handle.held }
{
    if !requester.is_live {
        return OpeningReport::refused(NOTHING_THERE);
    }
    let mut inside = requester.handle.take(alloc);
    let report = requester::open(&mut inside, now_ms, request);
    requester.handle.put(inside);
    report
}

/// Opens a request of any PLDM type: of this type, 0 to 63, and this command, with this data, at most 316 bytes. Its
/// packets are to be sent then.
#[unsafe(no_mangle)]
pub extern "C" fn needleoat_requester_open_request(
    alloc: Global,
    requester: &mut RequesterForC,
    now_ms: u64,
    pldm_type: u8,
    command: u8,
    rest: &[u8],
) -> OpeningReport
    requires { IsUpheld requester.old }
    ensures upheld { IsUpheld requester.new }
    ensures report { ReportsOpening (opening_at now_ms (asked_with pldm_type command rest.now)
        (holding requester.old.handle.held)) result }
    ensures memory { result.refusal ≡ NO_MEMORY → MayNeedRoom MAX_REMEMBERED (holding requester.old.handle.held) }
    ensures held { HoldsAfter (opened_by now_ms (asked_with pldm_type command rest.now) result.refusal)
        requester.old.handle.held requester.new.handle.held }
{
    if !requester.is_live {
        return OpeningReport::refused(NOTHING_THERE);
    }
    let mut inside = requester.handle.take(alloc);
    let report = requester::open_request(&mut inside, now_ms, pldm_type, command, rest);
    requester.handle.put(inside);
    report
}

/// Lists the requests that are to be sent again and those that are given up at a moment: 0, or why
/// not. Where it is not 0, `due` stays as it was.
#[unsafe(no_mangle)]
pub extern "C" fn needleoat_requester_tick(
    alloc: Global,
    requester: &mut RequesterForC,
    now_ms: u64,
    due: &mut DueReport,
) -> u8
    requires { IsUpheld requester.old }
    ensures upheld { IsUpheld requester.new }
    ensures refusal { result ≡ refusal_at now_ms (holding requester.old.handle.held) }
    ensures due { result ≡ 0 → ReportsDue now_ms due.new (holding requester.old.handle.held) }
    ensures refused { result ≢ 0 → due.new ≡ due.old }
    ensures held { HoldsAfter (ticked_by now_ms result) requester.old.handle.held requester.new.handle.held }
{
    if !requester.is_live {
        return NOTHING_THERE;
    }
    let mut inside = requester.handle.take(alloc);
    let refusal = requester::tick(&mut inside, now_ms, due);
    requester.handle.put(inside);
    refusal
}

/// Tells how long the caller may sleep: whether there is a moment from which on `needleoat_requester_tick` finds
/// something due, and nothing before, and which. Where there is none, `deadline_ms` stays as it was.
#[unsafe(no_mangle)]
pub extern "C" fn needleoat_requester_next_deadline(
    alloc: Global,
    requester: &mut RequesterForC,
    deadline_ms: &mut u64,
) -> bool
    requires { IsUpheld requester.old }
    ensures upheld { IsUpheld requester.new }
    ensures deadline { ReportsDeadline (holding requester.old.handle.held) result deadline_ms.old deadline_ms.new }
    ensures held { HoldsAfter unchanged requester.old.handle.held requester.new.handle.held }
{
    if !requester.is_live {
        return false;
    }
    let inside = requester.handle.take(alloc);
    let found = requester::next_deadline(&inside, deadline_ms);
    requester.handle.put(inside);
    found
}

/// Receives the bytes of a packet that came at a moment.
#[unsafe(no_mangle)]
pub extern "C" fn needleoat_requester_receive(
    alloc: Global,
    requester: &mut RequesterForC,
    now_ms: u64,
    packet: &[u8],
) -> PacketReport
    requires { IsUpheld requester.old }
    ensures upheld { IsUpheld requester.new }
    ensures report { ReportsPacket now_ms packet.now result (holding requester.old.handle.held) }
    ensures held { HoldsAfter (received_by now_ms packet.now result.kind)
        requester.old.handle.held requester.new.handle.held }
{
    if !requester.is_live {
        return PacketReport::without(RECEIVING_REFUSED, NOTHING_THERE);
    }
    let mut inside = requester.handle.take(alloc);
    let report = requester::receive(&mut inside, now_ms, packet);
    requester.handle.put(inside);
    report
}

/// Writes the first packet of a request that is remembered, and returns its length in bytes, else 0. The request of a
/// command has no other.
#[unsafe(no_mangle)]
pub extern "C" fn needleoat_requester_packet(
    alloc: Global,
    requester: &mut RequesterForC,
    number: u64,
    out: &mut [u8; MAX_PACKET_BYTES],
) -> u32
    requires { IsUpheld requester.old }
    ensures upheld { IsUpheld requester.new }
    ensures packet { IsWritten (packet_of number 0 (holding requester.old.handle.held)) result out.old out.new }
    ensures held { HoldsAfter unchanged requester.old.handle.held requester.new.handle.held }
{
    needleoat_requester_packet_at(alloc, requester, number, 0, out)
}

/// Writes packet `index` of a request that is remembered, counted from 0, and returns its length in bytes, else 0.
#[unsafe(no_mangle)]
pub extern "C" fn needleoat_requester_packet_at(
    alloc: Global,
    requester: &mut RequesterForC,
    number: u64,
    index: u32,
    out: &mut [u8; MAX_PACKET_BYTES],
) -> u32
    requires { IsUpheld requester.old }
    ensures upheld { IsUpheld requester.new }
    ensures packet { IsWritten (packet_of number index (holding requester.old.handle.held)) result out.old out.new }
    ensures held { HoldsAfter unchanged requester.old.handle.held requester.new.handle.held }
{
    if !requester.is_live {
        return 0;
    }
    let inside = requester.handle.take(alloc);
    let length = requester::packet(&inside, number, index, out);
    requester.handle.put(inside);
    length
}

/// Reports how a request stands, and writes the message that answered it.
#[unsafe(no_mangle)]
pub extern "C" fn needleoat_requester_status(
    alloc: Global,
    requester: &mut RequesterForC,
    number: u64,
    message: &mut [u8; MAX_MESSAGE_BYTES],
) -> StatusReport
    requires { IsUpheld requester.old }
    ensures upheld { IsUpheld requester.new }
    ensures report { ReportsProgress (progress_of number (holding requester.old.handle.held)) result
        message.old message.new }
    ensures held { HoldsAfter unchanged requester.old.handle.held requester.new.handle.held }
{
    if !requester.is_live {
        return StatusReport::without(STATUS_UNKNOWN);
    }
    let inside = requester.handle.take(alloc);
    let report = requester::status(&inside, number, message);
    requester.handle.put(inside);
    report
}

/// Frees the requester, where there is one. The handle is then as one of zeros.
#[unsafe(no_mangle)]
pub extern "C" fn needleoat_requester_free(alloc: Global, requester: &mut RequesterForC)
    requires { IsUpheld requester.old }
    ensures upheld { IsUpheld requester.new }
    ensures freed { requester.new.is_live ≡ false }
{
    if requester.is_live {
        drop(requester.handle.take(alloc));
        requester.is_live = false;
    }
}
