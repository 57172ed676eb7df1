//! Platform data records (DSP0248, "Common PDR format").

ghost use Rattle.std.specs.Prelude.{◌≡◌, ◌≤◌, ◌<◌, length, Some, None, if◌then◌else◌};
ghost use Rattle.pldm_records.specs.Records.{change_number_of, data_length_of, flag_of_part, handle_of, header_version_of, is_record, next_data_transfer_handle, part_of};

use crate::limits::{
    CHANGE_NUMBER_END, HEADER_VERSION, MAX_RECORD_BYTES, NO_RECORD, RECORD_HEADER,
};
use byteorder::{ByteOrder, LittleEndian};
use pldm_wire::{MAX_PART_BYTES, RecordPart, TransferFlag, crc8};
use std::marker::Model;

/// A platform data record: a header of [`RECORD_HEADER`] bytes, and as much data as it counts.
#[derive(Debug, Drop)]
pub struct Record {
    bytes: Vec<u8>,
}

impl Model for Record {
    ghost use Rattle.std.specs.Prelude.{List, ℕ, IsTrue};
    ghost use Rattle.pldm_records.specs.Records.{is_record};

    ghost Value = { List ℕ };

    ghost view = { λ r. r.bytes.items };

    ghost invariant = { λ r. IsTrue (is_record r.bytes.items) };
}

impl Record {
    /// The record that the bytes are, where they are one.
    pub fn new(bytes: Vec<u8>) -> Option<Record>
        ensures { result ≡ (if is_record bytes.items then Some bytes.items else None) }
    {
        if is_record(bytes.as_slice()) {
            Some(Record { bytes })
        } else {
            None
        }
    }

    /// The record's bytes in order.
    pub fn as_slice(&self) -> &[u8]
        ensures value { result.now ≡ self.now }
        ensures least { RECORD_HEADER ≤ length self.now }
        ensures most { length self.now ≤ MAX_RECORD_BYTES }
    {
        self.bytes.as_slice()
    }

    /// Its record handle.
    pub fn handle(&self) -> u32
        ensures { result ≡ handle_of self.now }
    {
        handle_of(self.as_slice())
    }

    /// Its part from the offset on, for a request of so many bytes: at most [`MAX_PART_BYTES`].
    pub fn part(&self, offset: usize, count: u16) -> RecordPart
        requires { offset ≤ length self.now }
        ensures { result ≡ part_of self.now offset count }
    {
        let mut part = RecordPart::empty();
        self.put_part(offset, count, &mut part);
        part
    }

    /// Puts what [`Record::part`] gives in the place of a part.
    pub fn put_part(&self, offset: usize, count: u16, part: &mut RecordPart)
        requires { offset ≤ length self.now }
        ensures { part.new ≡ part_of self.now offset count }
    {
        let record = self.as_slice();
        let (_, rest) = record.split_at(offset);
        let count = usize::from(count).min(MAX_PART_BYTES).min(rest.len());
        let (bytes, more) = rest.split_at(count);
        let flag = flag_of_part(offset == 0, more.is_empty());
        let checksum = if flag.is_end() {
            Some(crc8(record))
        } else {
            None
        };
        part.put(flag, bytes, checksum);
    }
}

/// Whether the bytes are a record.
fn is_record(bytes: &[u8]) -> bool
    ensures { result ≡ is_record bytes.now }
{
    if bytes.len() < RECORD_HEADER || bytes.len() > MAX_RECORD_BYTES {
        return false;
    }
    handle_of(bytes) != NO_RECORD
        && bytes[4] == HEADER_VERSION
        && bytes.len() == RECORD_HEADER + usize::from(data_length_of(bytes))
}

/// The handle of a record of which these are the first bytes.
pub(crate) fn handle_of(bytes: &[u8]) -> u32
    requires { RECORD_HEADER ≤ length bytes.now }
    ensures { result ≡ handle_of bytes.now }
{
    LittleEndian::read_u32(bytes)
}

/// How many bytes a record of which these are the first counts after its header.
pub(crate) fn data_length_of(bytes: &[u8]) -> u16
    requires { RECORD_HEADER ≤ length bytes.now }
    ensures { result ≡ data_length_of bytes.now }
{
    LittleEndian::read_u16(&bytes[8..])
}

/// The change number of a record of which these are the first bytes.
pub(crate) fn change_number_of(bytes: &[u8]) -> u16
    requires { CHANGE_NUMBER_END ≤ length bytes.now }
    ensures { result ≡ change_number_of bytes.now }
{
    LittleEndian::read_u16(&bytes[6..])
}

/// The flag of the first or a later part, with more to come or not.
fn flag_of_part(is_first: bool, is_last: bool) -> TransferFlag
    ensures { result ≡ flag_of_part is_first is_last }
{
    match (is_first, is_last) {
        (true, false) => TransferFlag::Start,
        (true, true) => TransferFlag::StartAndEnd,
        (false, false) => TransferFlag::Middle,
        (false, true) => TransferFlag::End,
    }
}
