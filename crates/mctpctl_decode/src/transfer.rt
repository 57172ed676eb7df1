//! A record that comes in parts from a responder to a requester.

ghost use Rattle.std.specs.Prelude.{◌≡◌, OnOk};
ghost use Rattle.mctpctl_decode.specs.Transfers.{asked_for, broken_off, extended, gone_on, is_ended_by, none_transferred, with_answer, with_flag};

use mctp_packet::Memory;
use pldm_records::MAX_RECORD_BYTES;
use pldm_wire::{RecordPart, TransferFlag};
use std::alloc::Global;
use std::marker::Model;

/// A request for a part of a record (DSP0248, "GetPDR command").
#[derive(Clone, Copy, Debug, PartialEq, Eq)]
pub struct PartRequest {
    /// Its instance ID.
    pub id: u8,
    /// Its data transfer handle: where the part begins, unless it is the first one.
    pub transfer: u32,
}

/// The newest part of a record that has come.
#[derive(Clone, Copy, Debug)]
pub struct NewestPart {
    /// The request that it answers.
    pub request: PartRequest,
    /// The data transfer handle of the next part; `None` after the last one.
    pub next: Option<u32>,
}

/// What has gone between a requester and a responder: the newest request for a part of a record, and the parts of a
/// record so far. It holds at most [`MAX_RECORD_BYTES`] bytes.
#[derive(Debug, Drop)]
pub struct Transfer {
    request: Option<PartRequest>,
    newest: Option<NewestPart>,
    /// The bytes of the record up to the end of the newest part; none without one.
    bytes: Vec<u8>,
}

impl Model for Transfer {
    ghost use Rattle.std.specs.Prelude.{◌≤◌, length};
    ghost use Rattle.mctpctl_decode.specs.Transfers.{Transferred};
    ghost use Rattle.pldm_records.specs.declared.limits.TheConstants.{MAX_RECORD_BYTES};

    ghost Value = { Transferred };

    ghost view = { λ t. record { request = t.request; newest = t.newest; bytes = t.bytes.items } };

    ghost invariant = { λ t. length t.bytes.items ≤ MAX_RECORD_BYTES };
}

impl Transfer {
    /// Nothing has gone yet.
    pub fn new(alloc: Global) -> Transfer
        ensures { result ≡ none_transferred }
    {
        Transfer {
            request: None,
            newest: None,
            bytes: Vec::new(alloc),
        }
    }

    /// Takes a request for a part.
    pub fn ask(&mut self, request: PartRequest)
        ensures { self.new ≡ asked_for self.old request }
    {
        self.request = Some(request);
    }

    /// Takes an answer with a part, after which the next one begins at a data transfer handle. An answer with another
    /// instance ID than the newest request is late, and leaves all as it was.
    pub fn take(&mut self, id: u8, next: u32, part: &RecordPart) -> Result<(), Memory>
        ensures { OnOk result (self.new ≡ with_answer self.old self.old.request id next part.now) }
    {
        match self.request {
            Some(request) if request.id == id => self.take_part(request, next, part),
            _ => Ok(()),
        }
    }

    /// Takes a part that answers this request.
    fn take_part(
        &mut self,
        request: PartRequest,
        next: u32,
        part: &RecordPart,
    ) -> Result<(), Memory>
        ensures { OnOk result (self.new ≡ with_flag self.old request next part.now.flag part.now.bytes) }
    {
        match part.flag() {
            TransferFlag::Start => {
                self.break_off();
                self.extend(request, Some(next), part.as_slice())
            }
            TransferFlag::Middle | TransferFlag::BaseMiddle => {
                self.go_on(request, Some(next), part.as_slice())
            }
            TransferFlag::End => self.go_on(request, None, part.as_slice()),
            TransferFlag::StartAndEnd => {
                self.break_off();
                Ok(())
            }
        }
    }

    /// Takes the bytes of a part that is not the first one. One that came already changes nothing; one that does not
    /// begin where the newest one ended breaks the record off.
    fn go_on(&mut self, request: PartRequest, next: Option<u32>, bytes: &[u8]) -> Result<(), Memory>
        ensures { OnOk result (self.new ≡ gone_on self.old self.old.newest request next bytes.now) }
    {
        let Some(newest) = self.newest else {
            self.break_off();
            return Ok(());
        };
        if request.id == newest.request.id && request.transfer == newest.request.transfer {
            return Ok(());
        }
        match newest.next {
            Some(place) if place == request.transfer => self.extend(request, next, bytes),
            _ => {
                self.break_off();
                Ok(())
            }
        }
    }

    /// Adds the bytes of the part that answers this request, unless the record would be too long.
    fn extend(
        &mut self,
        request: PartRequest,
        next: Option<u32>,
        bytes: &[u8],
    ) -> Result<(), Memory>
        ensures { OnOk result (self.new ≡ extended self.old request next bytes.now) }
    {
        if bytes.len() > MAX_RECORD_BYTES - self.bytes.len() {
            self.break_off();
            return Ok(());
        }
        self.bytes.extend_from_slice(bytes)?;
        self.newest = Some(NewestPart { request, next });
        Ok(())
    }

    /// Forgets the parts.
    fn break_off(&mut self)
        ensures { self.new ≡ broken_off self.old }
    {
        self.newest = None;
        self.bytes.clear();
    }

    /// Whether an answer with this instance ID and this flag, which was taken last, has the last part of the record.
    pub fn is_ended_by(&self, id: u8, flag: TransferFlag) -> bool
        ensures { result ≡ is_ended_by self.now id flag }
    {
        match (self.request, self.newest) {
            (Some(request), Some(newest)) => {
                flag.is_end() && request.id == id && newest.next.is_none()
            }
            _ => false,
        }
    }

    /// The bytes of the record so far.
    pub fn as_slice(&self) -> &[u8]
        ensures { result.now ≡ self.now.bytes }
    {
        self.bytes.as_slice()
    }
}
