//! The reports that the calls return to C.

ghost use Rattle.std.specs.Prelude.{◌≡◌, ◌≤◌, IfSome, false, is_some, length, true};
ghost use Rattle.mctp_packet.specs.Refusals.{is_eid};
ghost use Rattle.needleoat_c.specs.Requesters.{ReportsOpened, IsRefused as IsNotTaken};
ghost use Rattle.needleoat_c.specs.Termini.{IsOfAnswering, IsOfAsking};
ghost use Rattle.needleoat_c.specs.Endpoints.{AreRequest, HasNumbers, IsRefused, fields_of, handle_in, no_handle};

use crate::kinds::{HALF_ANSWERING, HALF_ASKING, RECEIVING_REFUSED, STEP_REFUSED};
use mctp_packet::{Eid, MAX_PACKETS};
use pldm_endpoint::CommandHandle;
use pldm_requester::{MAX_OPEN, Opened};
use pldm_wire::{MAX_REQUEST_DATA, RequestRef};

/// A request that was opened, or why none was.
#[repr(C)]
#[derive(Drop)]
pub struct OpeningReport {
    /// 0, or why none was opened. Where it is not 0, the other fields have no meaning.
    pub refusal: u8,
    /// Its instance ID, 0 to 31.
    pub instance_id: u8,
    /// Its message tag, 0 to 7.
    pub tag: u8,
    /// Its number, counted from 0 over all requests of the requester.
    pub number: u64,
}

// As in `include/needleoat.h`.
const _: () = prove!(size_of::<OpeningReport>() == 16);

impl OpeningReport {
    /// This request was opened.
    pub(crate) fn of(opened: Opened) -> OpeningReport
        ensures { ReportsOpened opened result }
    {
        OpeningReport {
            refusal: 0,
            instance_id: opened.id,
            tag: opened.tag.get(),
            number: opened.number,
        }
    }

    /// No request was opened.
    pub(crate) fn refused(refusal: u8) -> OpeningReport
        ensures { result.refusal ≡ refusal }
    {
        OpeningReport {
            refusal,
            instance_id: 0,
            tag: 0,
            number: 0,
        }
    }
}

/// The requests that a tick found due, by their numbers.
#[repr(C)]
#[derive(Drop)]
pub struct DueReport {
    /// How many are to be sent again, at most [`MAX_OPEN`].
    pub again_count: u32,
    /// How many were given up, at most [`MAX_OPEN`].
    pub given_up_count: u32,
    /// Those to be sent again: the first of these.
    pub again: [u64; MAX_OPEN],
    /// Those that were given up: the first of these.
    pub given_up: [u64; MAX_OPEN],
}

// As in `include/needleoat.h`.
const _: () = prove!(size_of::<DueReport>() == 136);

/// What becomes of a packet.
#[repr(C)]
#[derive(Drop)]
pub struct PacketReport {
    /// One of the kinds `RECEIVING_*`.
    pub kind: u8,
    /// Why it was refused, or the number of the reason to drop it, else 0.
    pub reason: u8,
    /// The number of the request that was answered.
    pub number: u64,
}

// As in `include/needleoat.h`.
const _: () = prove!(size_of::<PacketReport>() == 16);

impl PacketReport {
    /// No request was answered.
    pub(crate) fn without(kind: u8, reason: u8) -> PacketReport
        ensures kind { result.kind ≡ kind }
        ensures reason { result.reason ≡ reason }
    {
        PacketReport {
            kind,
            reason,
            number: 0,
        }
    }
}

/// How a request stands.
#[repr(C)]
#[derive(Drop)]
pub struct StatusReport {
    /// One of the kinds `STATUS_*`.
    pub kind: u8,
    /// The length of its answer in bytes.
    pub length: u32,
}

// As in `include/needleoat.h`.
const _: () = prove!(size_of::<StatusReport>() == 8);

impl StatusReport {
    /// There is no answer.
    pub(crate) fn without(kind: u8) -> StatusReport
        ensures kind { result.kind ≡ kind }
        ensures length { result.length ≡ 0 }
    {
        StatusReport { kind, length: 0 }
    }
}

/// The handle of what is asked of the device: its number, and whose request it is of. Nothing else that an endpoint
/// asks has that number.
#[repr(C)]
#[derive(Drop)]
pub struct HandleFields {
    /// How many commands and requests were handed to the device before.
    pub number: u64,
    /// The endpoint that the request came from.
    pub source: u8,
    /// The request's instance ID.
    pub instance_id: u8,
}

// As in `include/needleoat.h`.
const _: () = prove!(size_of::<HandleFields>() == 16);

impl HandleFields {
    /// The fields where nothing is asked of the device.
    pub(crate) fn none() -> HandleFields
        ensures { result ≡ no_handle }
    {
        HandleFields {
            number: 0,
            source: 0,
            instance_id: 0,
        }
    }

    /// The fields of this handle.
    fn of(handle: &CommandHandle) -> HandleFields
        ensures value { result ≡ fields_of handle.now }
        ensures source { is_eid result.source ≡ true }
    {
        HandleFields {
            number: handle.number,
            source: handle.source.get(),
            instance_id: handle.id,
        }
    }

    /// The handle with these fields, where the source is an endpoint ID.
    pub(crate) fn handle(&self) -> Option<CommandHandle>
        ensures some { is_some result ≡ is_eid self.now.source }
        ensures value { IfSome result (λ handle. handle ≡ handle_in self.now) }
    {
        let source = Eid::new(self.source)?;
        Some(CommandHandle {
            source,
            id: self.instance_id,
            number: self.number,
        })
    }
}

/// What becomes of a packet at an endpoint, or of the device's answer.
#[repr(C)]
#[derive(Drop)]
pub struct StepReport {
    /// One of the kinds `STEP_*`.
    pub kind: u8,
    /// Why it was refused, or the number of the reason to drop it, else 0.
    pub reason: u8,
    /// Whether the request was performed now.
    pub fresh: bool,
    /// Whether it was performed now, is of a command that sets, and was not refused.
    pub changed: bool,
    /// How many packets the answer has, at most [`MAX_PACKETS`].
    pub count: u32,
    /// The length of each in bytes.
    pub lengths: [u32; MAX_PACKETS],
    /// The handle of the command that is to be performed, or of the request that is to be responded to, else zeros.
    pub handle: HandleFields,
}

// As in `include/needleoat.h`.
const _: () = prove!(size_of::<StepReport>() == 48);

impl StepReport {
    /// There are no packets.
    pub(crate) fn without(kind: u8, reason: u8) -> StepReport
        ensures { HasNumbers kind reason false false 0 no_handle result }
    {
        StepReport {
            kind,
            reason,
            fresh: false,
            changed: false,
            count: 0,
            lengths: [0; MAX_PACKETS],
            handle: HandleFields::none(),
        }
    }

    /// Something is asked of the device: to perform a command, or to respond to a request.
    pub(crate) fn asking(kind: u8, handle: &CommandHandle) -> StepReport
        ensures numbers { HasNumbers kind 0 false false 0 (fields_of handle.now) result }
        ensures source { is_eid result.handle.source ≡ true }
    {
        let mut report = StepReport::without(kind, 0);
        report.handle = HandleFields::of(handle);
        report
    }
}

/// What becomes of a packet at an end that answers and asks.
#[repr(C)]
#[derive(Drop)]
pub struct ComingReport {
    /// Which half took it, or refused it, as `HALF_*`.
    pub half: u8,
    /// What the answering end made of it, where this half took it; else zeros.
    pub step: StepReport,
    /// What the requester made of it, where this half took it; else zeros.
    pub receiving: PacketReport,
}

// As in `include/needleoat.h`.
const _: () = prove!(size_of::<ComingReport>() == 72);

impl ComingReport {
    /// The answering end made this of it.
    pub(crate) fn answering(step: StepReport) -> ComingReport
        ensures of { IsOfAnswering result }
        ensures step { result.step ≡ step }
    {
        ComingReport {
            half: HALF_ANSWERING,
            step,
            receiving: PacketReport::without(RECEIVING_REFUSED, 0),
        }
    }

    /// The requester made this of it.
    pub(crate) fn asking(receiving: PacketReport) -> ComingReport
        ensures of { IsOfAsking result }
        ensures receiving { result.receiving ≡ receiving }
    {
        ComingReport {
            half: HALF_ASKING,
            step: StepReport::without(STEP_REFUSED, 0),
            receiving,
        }
    }

    /// The half that it came to refused it: the requester, or the answering end.
    pub(crate) fn refused(is_asking: bool, number: u8) -> ComingReport
        ensures asking { is_asking ≡ true → IsOfAsking result × IsNotTaken number result.receiving }
        ensures answering { is_asking ≡ false → IsOfAnswering result × IsRefused number result.step }
    {
        if is_asking {
            ComingReport::asking(PacketReport::without(RECEIVING_REFUSED, number))
        } else {
            ComingReport::answering(StepReport::without(STEP_REFUSED, number))
        }
    }
}

/// A request that was handed on as bytes.
#[repr(C)]
#[derive(Drop)]
pub struct RequestFields {
    /// Its PLDM type, 0 to 63.
    pub pldm_type: u8,
    /// Its command's number in that type.
    pub command: u8,
    /// How many bytes of data it has, at most [`MAX_REQUEST_DATA`].
    pub length: u32,
    /// Its data: the first of these.
    pub data: [u8; MAX_REQUEST_DATA],
}

// As in `include/needleoat.h`.
const _: () = prove!(size_of::<RequestFields>() == 324);

impl RequestFields {
    /// Takes the type, the command and the data of this request. What follows the data is as it was.
    pub(crate) fn set(&mut self, request: &RequestRef<'_>)
        requires { length request.now.rest ≤ MAX_REQUEST_DATA }
        ensures { AreRequest request.now self.old self.new }
    {
        let (kind, data) = (request.kind(), request.data());
        self.pldm_type = kind.pldm_type;
        self.command = kind.command;
        self.length = data.len() as u32;
        self.data[..data.len()].copy_from_slice(data);
    }
}
