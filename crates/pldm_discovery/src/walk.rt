//! A walk over a device: it asks for all that the device has, one command after another.

ghost use Rattle.std.specs.Prelude.{◌≡◌, ◌<◌, ◌++◌, true, length, option_map, slice_get, vec_len, vec_capacity, OnErr, OnOk};
ghost use Rattle.pldm_discovery.specs.Steps.{after, ended, is_end, listed, stage_from, with_part, with_reading, with_repository, with_tid, with_types, with_versions};
ghost use Rattle.pldm_discovery.specs.Walks.{begun, keeps, next_command, reading_at};
ghost use Rattle.pldm_records.specs.Fetches.{now_of};

use crate::answers::answer_to;
use crate::discovered::{Discovered, found_of};
use crate::handles::has_handle;
use crate::limits::{FIRST_RECORD, FIRST_TRANSFER, NO_RECORD};
use crate::message::Message;
use crate::stage::Stage;
use crate::terminus::{asked_handle, keep_asked};
use crate::types::{has_type, next_type};
use crate::versions::last_version;
use crate::whole_record::WholeRecord;
use mctp_packet::Memory;
use pldm_records::{Fetch, FetchFault, FetchState, MAX_RECORDS};
use pldm_wire::{Answer, Command, GET_FIRST_PART, PLATFORM, TYPES_BYTES};
use std::alloc::Global;
use std::marker::Model;
use std::mem;

/// What a device is asked when it is found: its terminus ID and PLDM types, the versions and commands of each, the
/// records of its repository, and the reading, the value or the states of each sensor and effecter of its own that a
/// record describes (DSP0240, DSP0248). Whoever holds it sends each command and gives it the message that answered.
///
/// What was not answered is passed over, with what depends on it.
#[derive(Drop)]
pub struct Walk {
    alloc: Global,
    stage: Stage,
    tid: Option<u8>,
    types: [u8; TYPES_BYTES],
    expected: Option<u32>,
    fetch: Fetch,
    records: Vec<WholeRecord>,
    found: Vec<Discovered>,
    readings: Vec<Option<Message>>,
}

impl Model for Walk {
    ghost use Rattle.pldm_discovery.specs.Walks.{Walking};

    ghost Value = { Walking };

    ghost view = { λ w. record {
      stage = w.stage;
      tid = w.tid;
      types = w.types;
      expected = w.expected;
      fetch = w.fetch;
      records = w.records.items;
      found = w.found.items;
      readings = w.readings.items;
    } };
}

impl Walk {
    /// A walk that has asked nothing yet.
    pub fn new(alloc: Global) -> Walk
        ensures { result ≡ begun }
    {
        Walk {
            alloc,
            stage: Stage::Tid,
            tid: None,
            types: [0; TYPES_BYTES],
            expected: None,
            fetch: Fetch::new(alloc, FIRST_RECORD),
            records: Vec::new(alloc),
            found: Vec::new(alloc),
            readings: Vec::new(alloc),
        }
    }

    /// The next command; `None` at the end.
    pub fn next(&self) -> Option<Command>
        ensures { result ≡ next_command self.now }
    {
        match self.stage {
            Stage::Tid => Some(Command::GetTid),
            Stage::Types => Some(Command::GetPldmTypes),
            Stage::Versions(pldm_type) => Some(Command::GetPldmVersion {
                data_transfer_handle: FIRST_TRANSFER,
                transfer_operation_flag: GET_FIRST_PART,
                pldm_type,
            }),
            Stage::Commands(pldm_type, version) => {
                Some(Command::GetPldmCommands { pldm_type, version })
            }
            Stage::Repository => Some(Command::GetPdrRepositoryInfo),
            Stage::Records => self.fetch.next(),
            Stage::Readings => match self.found.get(self.readings.len()) {
                Some(found) => Some(found.subject.question()),
                None => None,
            },
        }
    }

    /// Takes the message that answered the next command, or `None` where none came. A message that is no answer to that
    /// command is as none. At the end nothing changes.
    ///
    /// # Errors
    ///
    /// After Memory the walk is as before. It can come where a record or a reading is to be kept.
    pub fn take(&mut self, message: Option<&[u8]>) -> Result<(), Memory>
        ensures taken { OnOk result (self.new ≡ after self.old (option_map now_of message.entry)) }
        ensures unchanged { OnErr result (self.new ≡ self.old) }
        ensures memory { OnErr result (keeps self.old ≡ true) }
    {
        let Some(command) = self.next() else {
            return Ok(());
        };
        let answer = answer_to(&command, message);
        match self.stage {
            Stage::Tid => self.take_tid(&answer),
            Stage::Types => self.take_types(&answer),
            Stage::Versions(pldm_type) => self.take_versions(pldm_type, &answer),
            Stage::Commands(pldm_type, _) => self.stage = self.stage_from(u16::from(pldm_type) + 1),
            Stage::Repository => self.take_repository(&answer),
            Stage::Records => self.take_part(&answer)?,
            Stage::Readings => self.take_reading(message)?,
        }
        Ok(())
    }

    /// The stage of the next type that is not below a number.
    fn stage_from(&self, least: u16) -> Stage
        ensures { result ≡ stage_from self.now.types least }
    {
        match next_type(&self.types, least) {
            Some(pldm_type) => Stage::Versions(pldm_type),
            None if has_type(&self.types, PLATFORM) => Stage::Repository,
            None => Stage::Readings,
        }
    }

    /// Takes the terminus ID.
    fn take_tid(&mut self, answer: &Option<Answer>)
        ensures { self.new ≡ with_tid self.old answer.now }
    {
        self.stage = Stage::Types;
        self.tid = match answer {
            Some(Answer::GetTid { tid }) => Some(*tid),
            _ => None,
        };
    }

    /// Takes the PLDM types.
    fn take_types(&mut self, answer: &Option<Answer>)
        ensures { self.new ≡ with_types self.old answer.now }
    {
        match answer {
            Some(Answer::GetPldmTypes { types }) => {
                self.types = *types;
                self.stage = self.stage_from(0);
            }
            _ => self.stage = Stage::Readings,
        }
    }

    /// Takes the versions of this type.
    fn take_versions(&mut self, pldm_type: u8, answer: &Option<Answer>)
        ensures { self.new ≡ with_versions self.old pldm_type answer.now }
    {
        self.stage = match answer {
            Some(Answer::GetPldmVersion { versions, .. }) => {
                Stage::Commands(pldm_type, last_version(versions))
            }
            _ => self.stage_from(u16::from(pldm_type) + 1),
        };
    }

    /// Takes how many records there are.
    fn take_repository(&mut self, answer: &Option<Answer>)
        ensures { self.new ≡ with_repository self.old answer.now }
    {
        match answer {
            Some(Answer::GetPdrRepositoryInfo { record_count, .. }) => {
                self.stage = if *record_count == 0 {
                    Stage::Readings
                } else {
                    Stage::Records
                };
                self.expected = Some(*record_count);
            }
            _ => self.stage = Stage::Readings,
        }
    }

    /// Takes a part of a record.
    fn take_part(&mut self, answer: &Option<Answer>) -> Result<(), Memory>
        ensures taken { OnOk result (self.new ≡ with_part self.old answer.now) }
        ensures unchanged { OnErr result (self.new ≡ self.old) }
    {
        let Some(answer) = answer else {
            self.end_records();
            return Ok(());
        };
        self.records.reserve(1)?;
        self.found.reserve(1)?;
        match self.fetch.take(answer) {
            Ok(FetchState::More) => {}
            Ok(FetchState::Done(next)) => {
                let fetch = mem::replace(&mut self.fetch, Fetch::new(self.alloc, next));
                let pdr = WholeRecord::new(fetch);
                let found = found_of(self.records.len(), pdr.as_slice());
                push_found(&mut self.found, found);
                let _ = self.records.push(pdr); // there is room for it
                if is_end(&self.records, next) {
                    self.end_records();
                }
            }
            Err(FetchFault::Memory(memory)) => return Err(memory),
            Err(_) => self.end_records(),
        }
        Ok(())
    }

    /// Ends the records: what they describe of another terminus is not read.
    fn end_records(&mut self)
        ensures { self.new ≡ ended self.old }
    {
        let handle = asked_handle(self.tid, &self.records);
        keep_asked(&mut self.found, handle);
        self.stage = Stage::Readings;
    }

    /// Takes the message that answered for a sensor or an effecter, if one came.
    fn take_reading(&mut self, message: Option<&[u8]>) -> Result<(), Memory>
        ensures taken { OnOk result (self.new ≡ with_reading self.old (option_map now_of message.entry)) }
        ensures unchanged { OnErr result (self.new ≡ self.old) }
    {
        self.readings.reserve(1)?;
        let kept = match message {
            Some(bytes) => Some(Message::copied(self.alloc, bytes)?),
            None => None,
        };
        let _ = self.readings.push(kept); // there is room for it
        Ok(())
    }

    /// The terminus ID, where it was answered (DSP0240, "GetTID command").
    pub fn tid(&self) -> Option<u8>
        ensures { result ≡ self.now.tid }
    {
        self.tid
    }

    /// How many records there are, where it was answered (DSP0248, "GetPDRRepositoryInfo command"). The device may have
    /// fewer or more.
    pub fn expected_records(&self) -> Option<u32>
        ensures { result ≡ self.now.expected }
    {
        self.expected
    }

    /// How many records were read.
    pub fn record_count(&self) -> usize
        ensures { result ≡ length self.now.records }
    {
        self.records.len()
    }

    /// The record at this place, in the order in which they were read.
    pub fn record(&self, place: usize) -> Option<&[u8]>
        ensures { option_map now_of result ≡ slice_get self.now.records place }
    {
        match self.records.get(place) {
            Some(pdr) => Some(pdr.as_slice()),
            None => None,
        }
    }

    /// The sensors and effecters that the records describe, in the order of the records; once they were read, those of
    /// the asked terminus alone: the one whose handle the first valid terminus locator record of the answered terminus
    /// ID gives (DSP0248, "Terminus locator PDR"). Without such a record all count as its own.
    pub fn found(&self) -> &[Discovered]
        ensures { result.now ≡ self.now.found }
    {
        self.found.as_slice()
    }

    /// The message that answered for the sensor or effecter at this place of [`Walk::found`], a refusal too; `None`
    /// where none came, or it was not asked for yet.
    pub fn reading(&self, place: usize) -> Option<&[u8]>
        ensures { option_map now_of result ≡ reading_at self.now place }
    {
        match self.readings.get(place) {
            Some(Some(message)) => Some(message.as_slice()),
            _ => None,
        }
    }
}

/// Adds what a record describes, if it describes something. There has to be room for it.
fn push_found(found: &mut Vec<Discovered>, one: Option<Discovered>)
    requires { vec_len found.old < vec_capacity found.old }
    ensures { found.new.items ≡ found.old.items ++ listed one }
{
    if let Some(one) = one {
        let _ = found.push(one); // there is room for it
    }
}

/// Whether the records end with these, of which the last one names the next by its handle.
fn is_end(records: &[WholeRecord], next: u32) -> bool
    ensures { result ≡ is_end records.now next }
{
    next == NO_RECORD || has_handle(records, next) || records.len() >= MAX_RECORDS
}
