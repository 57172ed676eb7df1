//! Platform data records one after another in an array (DSP0248, "Common PDR format").

ghost use Rattle.std.specs.Prelude.{◌≡◌, ◌≤◌, ◌<◌, IfSome, is_some, length, option_map};
ghost use Rattle.pldm_records.specs.Records.{data_length_of, handle_at, handle_of};
ghost use Rattle.pldm_records.specs.declared.limits.TheConstants.{MAX_RECORD_BYTES};
ghost use Rattle.needleoat_wire_c.specs.RecordArrays.{has_handle};
ghost use Rattle.needleoat_wire_c.specs.RecordWalks.{first_record, from_asked, from_handle, records_in, summary_in};

use crate::record_writing::NO_RECORD;
use byteorder::{ByteOrder, LittleEndian};
use pldm_records::{MAX_RECORDS, RECORD_HEADER};

/// The version of a record's header (DSP0248, "PDRHeaderVersion").
const HEADER_VERSION: u8 = 1;

/// The record handle that asks for the first record (DSP0248, "GetPDR command").
const FIRST_RECORD: u32 = 0;

/// What GetPDRRepositoryInfo reports of records.
#[derive(Drop)]
pub struct Summary {
    /// How many there are.
    pub count: u32,
    /// The bytes of all.
    pub size: u32,
    /// The bytes of the largest.
    pub largest: u32,
}

/// The summary of the records in the bytes, where a repository may have just these records.
pub(crate) fn summary_of(bytes: &[u8]) -> Option<Summary>
    ensures { result ≡ summary_in bytes.now }
{
    let mut count: u32 = 0;
    let mut size: u32 = 0;
    let mut largest: u32 = 0;
    let mut rest = bytes;
    'records: while let Some((pdr, after)) = first_record(rest) {
        if count as usize == MAX_RECORDS || has_handle(after, handle_of(pdr)) {
            return None;
        }
        count += 1;
        size += pdr.len() as u32;
        largest = largest.max(pdr.len() as u32);
        rest = after;
    }
    if !rest.is_empty() {
        return None;
    }
    Some(Summary {
        count,
        size,
        largest,
    })
}

/// The record in front of the bytes and what comes after it, where there is one.
pub(crate) fn first_record(bytes: &[u8]) -> Option<(&[u8], &[u8])>
    ensures first { option_map (λ x. (x.0.now, x.1.now)) result ≡ first_record bytes.now }
    ensures least { IfSome result (λ x. RECORD_HEADER ≤ length x.0.now) }
    ensures most { IfSome result (λ x. length x.0.now ≤ MAX_RECORD_BYTES) }
    ensures after { IfSome result (λ x. length x.1.now < length bytes.now) }
{
    if bytes.len() < RECORD_HEADER {
        return None;
    }
    let size = RECORD_HEADER + usize::from(data_length_of(bytes));
    if bytes.len() < size {
        return None;
    }
    let (pdr, after) = bytes.split_at(size);
    if handle_of(pdr) == NO_RECORD || pdr[4] != HEADER_VERSION {
        return None;
    }
    Some((pdr, after))
}

/// The bytes from the record on that a command asks for by this handle: 0 asks for the first.
pub(crate) fn from_asked(bytes: &[u8], handle: u32) -> &[u8]
    ensures { records_in result.now ≡ from_asked handle (records_in bytes.now) }
{
    if handle == FIRST_RECORD {
        bytes
    } else {
        from_handle(bytes, handle)
    }
}

/// The handle of the record in front, 0 where there is none.
pub(crate) fn first_handle(bytes: &[u8]) -> u32
    ensures { result ≡ handle_at 0 (records_in bytes.now) }
{
    match first_record(bytes) {
        Some((pdr, _)) => handle_of(pdr),
        None => NO_RECORD,
    }
}

/// The bytes from the record with this handle on.
fn from_handle(bytes: &[u8], handle: u32) -> &[u8]
    ensures { records_in result.now ≡ from_handle handle (records_in bytes.now) }
{
    let mut rest = bytes;
    'records: while let Some((pdr, after)) = first_record(rest) {
        if handle_of(pdr) == handle {
            return rest;
        }
        rest = after;
    }
    rest
}

/// Whether a record in front has this handle.
fn has_handle(bytes: &[u8], handle: u32) -> bool
    ensures { result ≡ has_handle handle (records_in bytes.now) }
{
    first_record(from_handle(bytes, handle)).is_some()
}

/// The handle of a record of which these are the first bytes.
fn handle_of(bytes: &[u8]) -> u32
    requires { RECORD_HEADER ≤ length bytes.now }
    ensures { result ≡ handle_of bytes.now }
{
    LittleEndian::read_u32(bytes)
}

/// How many bytes a record of which these are the first counts after its header.
fn data_length_of(bytes: &[u8]) -> u16
    requires { RECORD_HEADER ≤ length bytes.now }
    ensures { result ≡ data_length_of bytes.now }
{
    LittleEndian::read_u16(&bytes[8..])
}
