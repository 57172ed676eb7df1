//! The work of each call on the requester behind a handle.

ghost use Rattle.std.specs.Prelude.{◌≡◌, ◌≢◌, ◌<◌, ◌≤◌, ◌&&◌, nat_le, nat_lt, Some, IfSome, is_some, length, option_and_then, option_map};
ghost use Rattle.std.specs.Option.{option_copied};
ghost use Rattle.pldm_wire.specs.Kinds.{of_type};
ghost use Rattle.pldm_requester.specs.Slots.{held_of};
ghost use Rattle.pldm_requester.specs.RequestProgress.{progress_in_status};
ghost use Rattle.pldm_requester.specs.Steps.{IsHeld};
ghost use Rattle.needleoat_forms.specs.Written.{IsWritten};
ghost use Rattle.needleoat_c.specs.Requesters.{AreInFront, ReportsDeadline, ReportsDue, ReportsGot, ReportsOpening, ReportsPacketIn, ReportsProgress, asked_in, asked_with, command_in, fault_number, fitting, is_next, opened_by, opening_in, packet_of, received_by, refusal_at, progress_of, ticked_by};

use crate::kinds::{
    RECEIVING_ANSWERED, RECEIVING_DROPPED, RECEIVING_PARTIAL, RECEIVING_REFUSED, STATUS_ANSWERED,
    STATUS_GAVE_UP, STATUS_OPEN, STATUS_UNKNOWN,
};
use crate::refusals::{BAD_MOMENT, ID_IN_USE, NO_COMMAND, NO_MEMORY, OUT_OF_RANGE, TAG_IN_USE};
use crate::reports::{DueReport, OpeningReport, PacketReport, StatusReport};
use mctp_packet::{MAX_MESSAGE_BYTES, MAX_PACKET_BYTES, Moment};
use pldm_requester::{Got, MAX_OPEN, MAX_REMEMBERED, OpenFault, Requester, Status};
use pldm_wire::{Command, Kind, MAX_REQUEST_DATA, read_command, read_request};

/// The moment, where it may come next.
fn next_moment(requester: &Requester, now_ms: u64) -> Option<Moment>
    ensures some { is_some result ≡ is_next now_ms (held_of requester.now) }
    ensures value { IfSome result (λ now. now ≡ now_ms) }
    ensures later { IfSome result (λ now. (held_of requester.now).last ≤ now) }
{
    let now = Moment::new(now_ms)?;
    if now < requester.last_moment() {
        return None;
    }
    Some(now)
}

/// The command that a message carries as a request.
pub(crate) fn command_in(message: &[u8]) -> Option<Command>
    ensures { result ≡ command_in message.now }
{
    let Ok(request) = read_request(message) else {
        return None;
    };
    match read_command(&request) {
        Ok(command) => Some(command),
        Err(_) => None,
    }
}

/// The number of a fault of opening.
pub(crate) fn fault_number(fault: OpenFault) -> u8
    ensures number { result ≡ fault_number fault }
    ensures some { 1 ≤ result }
{
    match fault {
        OpenFault::TagInUse => TAG_IN_USE,
        OpenFault::IdInUse => ID_IN_USE,
        OpenFault::Memory(_) => NO_MEMORY,
    }
}

/// Opens a request for the command that a message carries.
pub(crate) fn open(requester: &mut Requester, now_ms: u64, request: &[u8]) -> OpeningReport
    ensures report { ReportsOpening (opening_in now_ms (asked_in request.now) (held_of requester.old)) result }
    ensures memory { result.refusal ≡ NO_MEMORY → (held_of requester.old).count < MAX_REMEMBERED }
    ensures held { IsHeld (held_of requester.new)
        (opened_by now_ms (asked_in request.now) result.refusal (held_of requester.old)) }
{
    let Some(now) = next_moment(requester, now_ms) else {
        return OpeningReport::refused(BAD_MOMENT);
    };
    let Some(command) = command_in(request) else {
        return OpeningReport::refused(NO_COMMAND);
    };
    match requester.open(now, &command) {
        Ok(opened) => OpeningReport::of(opened),
        Err(fault) => OpeningReport::refused(fault_number(fault)),
    }
}

/// The type and command with these numbers, where a request of them can have so many bytes of data.
pub(crate) fn kind_of(pldm_type: u8, command: u8, length: usize) -> Option<Kind>
    ensures some { is_some result ≡ (nat_lt pldm_type 64 && nat_le length MAX_REQUEST_DATA) }
    ensures value { IfSome result (λ kind. kind ≡ of_type pldm_type command) }
    ensures few { IfSome result (λ kind. length ≤ MAX_REQUEST_DATA) }
{
    if pldm_type > 63 || length > MAX_REQUEST_DATA {
        return None;
    }
    Some(Kind { pldm_type, command })
}

/// Opens a request of any PLDM type: of this type and command, with this data.
pub(crate) fn open_request(
    requester: &mut Requester,
    now_ms: u64,
    pldm_type: u8,
    command: u8,
    rest: &[u8],
) -> OpeningReport
    ensures report { ReportsOpening (opening_in now_ms (asked_with pldm_type command rest.now) (held_of requester.old))
        result }
    ensures memory { result.refusal ≡ NO_MEMORY → (held_of requester.old).count < MAX_REMEMBERED }
    ensures held { IsHeld (held_of requester.new)
        (opened_by now_ms (asked_with pldm_type command rest.now) result.refusal (held_of requester.old)) }
{
    let Some(now) = next_moment(requester, now_ms) else {
        return OpeningReport::refused(BAD_MOMENT);
    };
    let Some(kind) = kind_of(pldm_type, command, rest.len()) else {
        return OpeningReport::refused(OUT_OF_RANGE);
    };
    match requester.open_request(now, kind, rest) {
        Ok(opened) => OpeningReport::of(opened),
        Err(fault) => OpeningReport::refused(fault_number(fault)),
    }
}

/// Lists the requests that are due: 0, or why not.
pub(crate) fn tick(requester: &mut Requester, now_ms: u64, due: &mut DueReport) -> u8
    ensures refusal { result ≡ refusal_at now_ms (Some (held_of requester.old)) }
    ensures due { result ≡ 0 → ReportsDue now_ms due.new (Some (held_of requester.old)) }
    ensures refused { result ≢ 0 → due.new ≡ due.old }
    ensures held { IsHeld (held_of requester.new) (ticked_by now_ms result (held_of requester.old)) }
{
    let Some(now) = next_moment(requester, now_ms) else {
        return BAD_MOMENT;
    };
    let found = requester.tick(now);
    due.again_count = put_numbers(&mut due.again, &found.again);
    due.given_up_count = put_numbers(&mut due.given_up, &found.given_up);
    0
}

/// Puts the moment from which on a tick finds something due in the place of what is there, and returns whether there is
/// one.
pub(crate) fn next_deadline(requester: &Requester, deadline_ms: &mut u64) -> bool
    ensures { ReportsDeadline (Some (held_of requester.now)) result deadline_ms.old deadline_ms.new }
{
    match requester.next_deadline() {
        Some(deadline) => {
            *deadline_ms = deadline.get();
            true
        }
        None => false,
    }
}

/// Puts numbers in front, and returns how many there are.
pub(crate) fn put_numbers(room: &mut [u64; MAX_OPEN], numbers: &[u64]) -> u32
    requires { length numbers.now ≤ MAX_OPEN }
    ensures { AreInFront numbers.now result room.new }
{
    room[..numbers.len()].copy_from_slice(numbers);
    numbers.len() as u32
}

/// Receives the bytes of a packet.
pub(crate) fn receive(requester: &mut Requester, now_ms: u64, packet: &[u8]) -> PacketReport
    ensures report { ReportsPacketIn now_ms packet.now result (held_of requester.old) }
    ensures held { IsHeld (held_of requester.new) (received_by now_ms packet.now result.kind (held_of requester.old)) }
{
    let Some(now) = next_moment(requester, now_ms) else {
        return PacketReport::without(RECEIVING_REFUSED, BAD_MOMENT);
    };
    match requester.receive(now, packet) {
        Ok(got) => report_of(got),
        Err(_) => PacketReport::without(RECEIVING_REFUSED, NO_MEMORY),
    }
}

/// The report of what becomes of a packet.
pub(crate) fn report_of(got: Got) -> PacketReport
    ensures report { ReportsGot got result }
    ensures kind { 1 ≤ result.kind }
{
    match got {
        Got::Dropped(reason) => PacketReport::without(RECEIVING_DROPPED, reason.number()),
        Got::Partial => PacketReport::without(RECEIVING_PARTIAL, 0),
        Got::Answered(number) => PacketReport {
            kind: RECEIVING_ANSWERED,
            reason: 0,
            number,
        },
    }
}

/// Writes packet `index` of a request that is remembered, and returns its length, else 0.
pub(crate) fn packet(
    requester: &Requester,
    number: u64,
    index: u32,
    out: &mut [u8; MAX_PACKET_BYTES],
) -> u32
    ensures { IsWritten (packet_of number index (Some (held_of requester.now))) result out.old out.new }
{
    match requester.packets(number) {
        Some(packets) => put_packet(packets.get(index as usize), out),
        None => 0,
    }
}

/// Writes a packet, where there is one and it has room.
fn put_packet(packet: Option<&[u8]>, out: &mut [u8; MAX_PACKET_BYTES]) -> u32
    ensures { IsWritten (option_and_then (fitting MAX_PACKET_BYTES) (option_copied packet.entry)) result
        out.old out.new }
{
    match packet {
        Some(packet) => put_fitting(out, packet),
        None => 0,
    }
}

/// Writes bytes to the front of a room, where they fit, and returns their count, else 0. No room that crosses to C has
/// more bytes than a message.
fn put_fitting(room: &mut [u8], bytes: &[u8]) -> u32
    requires { length room.old ≤ MAX_MESSAGE_BYTES }
    ensures { IsWritten (fitting (length room.old) bytes.now) result room.old room.new }
{
    if bytes.len() > room.len() {
        return 0;
    }
    room[..bytes.len()].copy_from_slice(bytes);
    bytes.len() as u32
}

/// Reports how a request stands, and writes the message that answered it.
pub(crate) fn status(
    requester: &Requester,
    number: u64,
    message: &mut [u8; MAX_MESSAGE_BYTES],
) -> StatusReport
    ensures { ReportsProgress (progress_of number (Some (held_of requester.now))) result message.old message.new }
{
    status_report(requester.status(number), message)
}

/// Reports a status, and writes the message of an answer.
fn status_report(status: Option<Status<'_>>, room: &mut [u8; MAX_MESSAGE_BYTES]) -> StatusReport
    ensures { ReportsProgress (option_map progress_in_status status.entry) result room.old room.new }
{
    match status {
        None => StatusReport::without(STATUS_UNKNOWN),
        Some(Status::Open) => StatusReport::without(STATUS_OPEN),
        Some(Status::Answered(message)) => StatusReport {
            kind: STATUS_ANSWERED,
            length: put_fitting(room, message),
        },
        Some(Status::GaveUp) => StatusReport::without(STATUS_GAVE_UP),
    }
}
