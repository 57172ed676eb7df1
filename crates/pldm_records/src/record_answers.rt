//! The commands of the record repository (DSP0248).

ghost use Rattle.std.specs.Prelude.{◌≡◌, ◌≤◌, Some, IfSome, length};
ghost use Rattle.pldm_records.specs.RecordAnswers.{offset_asked, part_answered, record_answer, record_answered, repository_info};

use crate::limits::{NO_TRANSFER_TIMEOUT, REPOSITORY_AVAILABLE};
use crate::record::Record;
use crate::repository::Repository;
use pldm_platform::{
    INVALID_DATA_TRANSFER_HANDLE, INVALID_RECORD_HANDLE, INVALID_TRANSFER_OPERATION, refused,
};
use pldm_wire::{Answer, Code, GET_FIRST_PART, RecordPart, TIME_BYTES};

/// The answer to GetPDRRepositoryInfo of a repository with these two times of its last change
/// (DSP0248, "GetPDRRepositoryInfo command"; the times are timestamp104 of DSP0240).
pub fn repository_info(
    records: &Repository,
    update_time: [u8; TIME_BYTES],
    oem_update_time: [u8; TIME_BYTES],
) -> Answer
    ensures { result ≡ repository_info update_time oem_update_time records.now }
{
    Answer::GetPdrRepositoryInfo {
        state: REPOSITORY_AVAILABLE,
        update_time,
        oem_update_time,
        record_count: records.count(),
        repository_size: records.size(),
        largest_record_size: records.largest(),
        timeout: NO_TRANSFER_TIMEOUT,
    }
}

/// Puts the answer to GetPDR into `given`.
// Not inlined: the longest answer's room is then on the stack for this command alone.
#[inline(never)]
pub fn put_record_part(
    records: &Repository,
    record_handle: u32,
    data_transfer_handle: u32,
    transfer_operation_flag: u8,
    request_count: u16,
    given: &mut Answer,
)
    ensures { given.new ≡ record_answer record_handle data_transfer_handle transfer_operation_flag request_count
        records.now }
{
    if request_count == 0 {
        *given = Answer::Refused(Code::ERROR_INVALID_DATA);
        return;
    }
    if transfer_operation_flag > GET_FIRST_PART {
        *given = refused(INVALID_TRANSFER_OPERATION);
        return;
    }
    let Some(position) = records.position_asked(record_handle) else {
        *given = refused(INVALID_RECORD_HANDLE);
        return;
    };
    let Some(pdr) = records.get(position) else {
        *given = refused(INVALID_RECORD_HANDLE);
        return;
    };
    let Some(offset) = offset_asked(transfer_operation_flag, data_transfer_handle, pdr) else {
        *given = refused(INVALID_DATA_TRANSFER_HANDLE);
        return;
    };
    let next_record_handle = records.handle_at(position + 1);
    put_part(next_record_handle, request_count, pdr, offset, given);
}

/// The offset of the part that is asked for, where one begins there.
fn offset_asked(
    transfer_operation_flag: u8,
    data_transfer_handle: u32,
    pdr: &Record,
) -> Option<usize>
    ensures offset { result ≡ offset_asked transfer_operation_flag data_transfer_handle pdr.now }
    ensures within { IfSome result (λ offset. offset ≤ length pdr.now) }
{
    if transfer_operation_flag == GET_FIRST_PART {
        return Some(0);
    }
    let offset = data_transfer_handle as usize;
    if offset == 0 || offset >= pdr.as_slice().len() {
        return None;
    }
    Some(offset)
}

/// Puts the part of the record from the offset on, and where the next one begins.
fn put_part(
    next_record_handle: u32,
    request_count: u16,
    pdr: &Record,
    offset: usize,
    given: &mut Answer,
)
    requires { offset ≤ length pdr.now }
    ensures { given.new ≡ part_answered next_record_handle request_count pdr.now (Some offset) }
{
    let length = pdr.as_slice().len();
    // The part is written where it stays, so that it is not moved.
    *given = Answer::GetPdr {
        next_record_handle,
        next_data_transfer_handle: 0,
        part: RecordPart::empty(),
    };
    match given {
        Answer::GetPdr {
            next_data_transfer_handle,
            part,
            ..
        } => {
            pdr.put_part(offset, request_count, part);
            let end = offset + part.as_slice().len();
            if end < length {
                *next_data_transfer_handle = end as u32;
            }
        }
        _ => unreachable!(),
    }
}
