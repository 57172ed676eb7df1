//! A record fetched in parts: the requester's side of a transfer (DSP0248, "GetPDR command").

ghost use Rattle.std.specs.Prelude.{◌≡◌, ◌≢◌, true, Err, IfSome, option_map};
ghost use Rattle.mctp_packet.specs.Memories.{out_of_memory};
ghost use Rattle.pldm_records.specs.FetchFaults.{number_of_fetch_fault};
ghost use Rattle.pldm_records.specs.Fetches.{Ends, IsSmall, adds, after_taking, begun, failed, has_room_for, is_last, next_request, now_of, part_after, part_taken, record_fault, fetched_record, taken};

use crate::limits::{CHANGE_NUMBER_END, FIRST_RECORD, MAX_RECORD_BYTES, RECORD_HEADER};
use crate::record::{change_number_of, data_length_of, handle_of};
use mctp_packet::Memory;
use pldm_wire::{
    Answer, Code, Command, GET_FIRST_PART, GET_NEXT_PART, MAX_PART_BYTES, RecordPart, TransferFlag,
    crc8,
};
use std::alloc::{AllocError, Global};
use std::marker::Model;
use thiserror::Error;

/// Why a fetch failed, or did not take an answer. The first four end the fetch; the last two leave it
/// as it was.
#[derive(Clone, Copy, Debug, PartialEq, Eq, Error)]
pub enum FetchFault {
    /// The device refused the request with this completion code.
    #[error("the device refused the request")]
    Refused(Code),
    /// A part is empty or passes the longest record, or the record's length is not the one that it
    /// states.
    #[error("the record has the wrong length")]
    Count,
    /// The record has another handle than was asked for.
    #[error("the record has another handle")]
    Handle,
    /// The record's checksum is not the one that came with its last part.
    #[error("the record has another checksum")]
    Crc,
    /// No memory was left.
    #[error("out of memory")]
    Memory(Memory),
    /// It is no answer to GetPDR, or the fetch has finished.
    #[error("the answer was not asked for")]
    Unexpected,
}

impl FetchFault {
    /// The fault's number in this profile's list.
    pub fn number(self) -> u8
        ensures { result ≡ number_of_fetch_fault self }
    {
        match self {
            FetchFault::Refused(_) => 1,
            FetchFault::Count => 2,
            FetchFault::Handle => 3,
            FetchFault::Crc => 4,
            FetchFault::Memory(_) => 5,
            FetchFault::Unexpected => 6,
        }
    }
}

impl From<Memory> for FetchFault {
    ghost use Rattle.pldm_records.specs.declared.fetch.FetchFault.TheVariants as faults;

    ghost from_gives = { λ memory fault. fault ≡ faults.Memory memory };

    fn from(memory: Memory) -> FetchFault {
        FetchFault::Memory(memory)
    }
}

impl From<AllocError> for FetchFault {
    ghost use Rattle.pldm_records.specs.declared.fetch.FetchFault.TheVariants as faults;

    ghost from_gives = { λ _ fault. fault ≡ faults.Memory out_of_memory };

    fn from(refused: AllocError) -> FetchFault {
        FetchFault::Memory(refused.into())
    }
}

/// How a fetch goes on after an answer.
#[derive(Clone, Copy, Debug, PartialEq, Eq)]
pub enum FetchState {
    /// The next part has to be asked for.
    More,
    /// The record is whole. The number is the handle of the record that follows it, or 0 after the
    /// last one.
    Done(u32),
}

/// How far a fetch has come.
#[derive(Clone, Copy, Debug)]
pub(crate) enum Stage {
    /// Parts are still to come.
    Going,
    /// The record is whole.
    Finished,
    /// It ended with this fault.
    Failed(FetchFault),
}

/// Fetches one record in parts. It makes the requests and takes their answers; whoever holds it sends
/// the one and receives the other.
///
/// It holds at most [`MAX_RECORD_BYTES`] bytes, whatever it is given.
#[derive(Debug, Drop)]
pub struct Fetch {
    handle: u32,
    bytes: Vec<u8>,
    next_data_transfer_handle: u32,
    stage: Stage,
}

impl Model for Fetch {
    ghost use Rattle.pldm_records.specs.Fetches.{Fetching, IsFetch};

    ghost Value = { Fetching };

    ghost view = { λ f. record {
      asked = f.handle;
      bytes = f.bytes.items;
      offset = f.next_data_transfer_handle;
      stage
          = f.stage;
    } };

    ghost invariant = { λ f. IsFetch (record {
      asked = f.handle;
      bytes = f.bytes.items;
      offset =
          f.next_data_transfer_handle;
      stage = f.stage;
    }) };
}

impl Fetch {
    /// A fetch of the record with this handle. 0 asks for the first record, whatever its handle.
    pub fn new(alloc: Global, handle: u32) -> Fetch
        ensures { result ≡ begun handle }
    {
        Fetch {
            handle,
            bytes: Vec::new(alloc),
            next_data_transfer_handle: 0,
            stage: Stage::Going,
        }
    }

    /// The request for the next part: GetPDR. `None` where the fetch has finished or failed.
    pub fn next(&self) -> Option<Command>
        ensures { result ≡ next_request self.now }
    {
        let Stage::Going = self.stage else {
            return None;
        };
        let transfer_operation_flag = if self.bytes.is_empty() {
            GET_FIRST_PART
        } else {
            GET_NEXT_PART
        };
        let record_change_number = if self.bytes.len() < CHANGE_NUMBER_END {
            0
        } else {
            change_number_of(&self.bytes)
        };
        Some(Command::GetPdr {
            record_handle: self.handle,
            data_transfer_handle: self.next_data_transfer_handle,
            transfer_operation_flag,
            request_count: MAX_PART_BYTES as u16,
            record_change_number,
        })
    }

    /// Takes the answer to the request for the next part.
    ///
    /// # Errors
    ///
    /// `Refused`, `Count`, `Handle` and `Crc` end the fetch: each later call answers the same fault.
    /// After `Memory` and `Unexpected` the fetch is as before.
    pub fn take(&mut self, answer: &Answer) -> Result<FetchState, FetchFault>
        ensures taken { result ≢ Err (FetchFault.Memory out_of_memory) → result ≡ taken self.old answer.now }
        ensures after_taking { result ≢ Err (FetchFault.Memory out_of_memory) →
            self.new ≡ after_taking self.old answer.now }
        ensures memory { result ≡ Err (FetchFault.Memory out_of_memory) → adds self.old answer.now ≡ true }
        ensures unchanged { result ≡ Err (FetchFault.Memory out_of_memory) → self.new ≡ self.old }
        ensures small { IsSmall self.new }
    {
        match self.stage {
            Stage::Failed(fault) => return Err(fault),
            Stage::Finished => return Err(FetchFault::Unexpected),
            Stage::Going => {}
        }
        match answer {
            Answer::Refused(code) => self.fail(&FetchFault::Refused(*code)),
            Answer::GetPdr {
                next_record_handle,
                next_data_transfer_handle,
                part,
            } => self.take_part(*next_record_handle, *next_data_transfer_handle, part),
            _ => Err(FetchFault::Unexpected),
        }
    }

    /// Takes the next part of the record.
    fn take_part(
        &mut self,
        next_record_handle: u32,
        next_data_transfer_handle: u32,
        part: &RecordPart,
    ) -> Result<FetchState, FetchFault>
        requires { self.old.stage ≡ Stage.Going }
        ensures taken { result ≢ Err (FetchFault.Memory out_of_memory) →
            result ≡ part_taken self.old next_record_handle part.now }
        ensures after_taking { result ≢ Err (FetchFault.Memory out_of_memory) → self.new ≡ part_after self.old
            next_data_transfer_handle part.now (part_taken self.old next_record_handle part.now) }
        ensures memory { result ≡ Err (FetchFault.Memory out_of_memory) → has_room_for self.old.bytes part.now ≡ true }
        ensures unchanged { result ≡ Err (FetchFault.Memory out_of_memory) → self.new ≡ self.old }
        ensures small { IsSmall self.new }
    {
        if !self.has_room_for(part) {
            return self.fail(&FetchFault::Count);
        }
        self.bytes.extend_from_slice(part.as_slice())?;
        if !is_last(part.flag()) {
            self.next_data_transfer_handle = next_data_transfer_handle;
            return Ok(FetchState::More);
        }
        match self.record_fault(part.transfer_crc()) {
            Some(fault) => self.fail(&fault),
            None => {
                self.next_data_transfer_handle = next_data_transfer_handle;
                self.stage = Stage::Finished;
                Ok(FetchState::Done(next_record_handle))
            }
        }
    }

    /// Whether the part may be added: it isn't empty, and the record doesn't grow too long.
    fn has_room_for(&self, part: &RecordPart) -> bool
        ensures { result ≡ has_room_for self.now.bytes part.now }
    {
        let more = part.as_slice();
        !more.is_empty() && more.len() <= MAX_RECORD_BYTES - self.bytes.len()
    }

    /// Why the bytes are not the record that was asked for, if they aren't.
    fn record_fault(&self, checksum: Option<u8>) -> Option<FetchFault>
        ensures value { result ≡ record_fault self.now.asked self.now.bytes checksum }
        ensures ends { IfSome result Ends }
    {
        record_fault(self.handle, self.bytes.as_slice(), checksum)
    }

    /// Ends the fetch with this fault.
    fn fail(&mut self, fault: &FetchFault) -> Result<FetchState, FetchFault>
        requires { Ends fault.now }
        ensures fault { result ≡ Err fault.now }
        ensures failed { self.new ≡ failed fault.now self.old }
    {
        self.bytes.clear();
        self.stage = Stage::Failed(*fault);
        Err(*fault)
    }

    /// The whole record, once it is there.
    pub fn record(&self) -> Option<&[u8]>
        ensures { option_map now_of result ≡ fetched_record self.now }
    {
        match self.stage {
            Stage::Finished => Some(self.bytes.as_slice()),
            _ => None,
        }
    }
}

/// Whether no more parts follow.
fn is_last(flag: TransferFlag) -> bool
    ensures { result ≡ is_last flag }
{
    matches!(flag, TransferFlag::End | TransferFlag::StartAndEnd)
}

/// Why these bytes are not the record that was asked for, if they aren't.
fn record_fault(asked: u32, bytes: &[u8], checksum: Option<u8>) -> Option<FetchFault>
    ensures value { result ≡ record_fault asked bytes.now checksum }
    ensures ends { IfSome result Ends }
{
    if bytes.len() < RECORD_HEADER
        || bytes.len() != RECORD_HEADER + usize::from(data_length_of(bytes))
    {
        return Some(FetchFault::Count);
    }
    if asked != FIRST_RECORD && handle_of(bytes) != asked {
        return Some(FetchFault::Handle);
    }
    match checksum {
        Some(checksum) if checksum != crc8(bytes) => Some(FetchFault::Crc),
        _ => None,
    }
}
