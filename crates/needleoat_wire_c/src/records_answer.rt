//! The commands of a PDR repository (DSP0248), answered over records in an array.

ghost use Rattle.std.specs.Prelude.{◌≡◌, ◌≤◌, Some, IfSome, IsTrue, List, ℕ, length, false};
ghost use Rattle.pldm_wire.specs.Answers.{IsAnswerTo};
ghost use Rattle.pldm_wire.specs.Kinds.{of_type};
ghost use Rattle.pldm_records.specs.RecordAnswers.{offset_asked, part_answered, record_answer};
ghost use Rattle.pldm_records.specs.Records.{flag_of_part, part_of};
ghost use Rattle.pldm_records.specs.declared.limits.TheConstants.{MAX_RECORD_BYTES};
ghost use Rattle.needleoat_wire_c.specs.RecordArrays.{AreNoRecords, AreRecords, IsAnswered, IsUnanswered, answer_among, is_of_repository};
ghost use Rattle.needleoat_wire_c.specs.RecordWalks.{records_in};

use crate::record_array::{first_handle, first_record, from_asked, summary_of};
use needleoat_forms::{AnswerFields, CommandFields};
use pldm_platform::{
    INVALID_DATA_TRANSFER_HANDLE, INVALID_RECORD_HANDLE, INVALID_TRANSFER_OPERATION, refused,
};
use pldm_wire::{
    Answer, Code, GET_FIRST_PART, GET_PDR, GET_PDR_REPOSITORY_INFO, Kind, MAX_PART_BYTES, PLATFORM,
    RecordPart, TIME_BYTES, TransferFlag, crc8,
};

/// The command is another one.
pub const OTHER_COMMAND: u8 = 1;

/// The bytes are no records that a repository may have.
pub const NO_RECORDS: u8 = 2;

/// The state `available` of a repository (DSP0248, "GetPDRRepositoryInfo command").
const REPOSITORY_AVAILABLE: u8 = 0;

/// No timeout between the parts of a record (DSP0248, "GetPDRRepositoryInfo command").
const NO_TRANSFER_TIMEOUT: u8 = 0;

/// Puts the answer to GetPDRRepositoryInfo or GetPDR over the records in the bytes into `fields`, and returns 0. Where
/// there is no answer, it leaves `fields` as it was and returns [`OTHER_COMMAND`] or [`NO_RECORDS`].
pub(crate) fn records_answer(
    records: &[u8],
    update_time: &[u8; TIME_BYTES],
    oem_update_time: &[u8; TIME_BYTES],
    command: &CommandFields,
    fields: &mut AnswerFields,
) -> u8
    ensures answered { (held : List (List ℕ)) → AreRecords records.now held → IsTrue (is_of_repository command.now)
        → IsAnswered command.now (answer_among update_time.now oem_update_time.now command.now held) result
        fields.new }
    ensures no_records { AreNoRecords records.now → IsTrue (is_of_repository command.now)
        → IsUnanswered NO_RECORDS result fields.old fields.new }
    ensures other { is_of_repository command.now ≡ false → IsUnanswered OTHER_COMMAND result fields.old fields.new }
{
    if !is_of_repository(command) {
        return OTHER_COMMAND;
    }
    let Some(summary) = summary_of(records) else {
        return NO_RECORDS;
    };
    let mut answer = Answer::SetTid;
    if command.command == GET_PDR_REPOSITORY_INFO {
        answer = Answer::GetPdrRepositoryInfo {
            state: REPOSITORY_AVAILABLE,
            update_time: *update_time,
            oem_update_time: *oem_update_time,
            record_count: summary.count,
            repository_size: summary.size,
            largest_record_size: summary.largest,
            timeout: NO_TRANSFER_TIMEOUT,
        };
    } else {
        put_record_part(records, command, &mut answer);
    }
    let kind = Kind {
        pldm_type: command.pldm_type,
        command: command.command,
    };
    fields.set(command.instance_id, kind, &answer);
    0
}

/// Whether the command is one of the two that a repository answers.
fn is_of_repository(command: &CommandFields) -> bool
    ensures { result ≡ is_of_repository command.now }
{
    command.pldm_type == PLATFORM
        && (command.command == GET_PDR_REPOSITORY_INFO || command.command == GET_PDR)
}

/// Puts the answer to GetPDR.
// Not inlined: the longest answer's room is then on the stack for this command alone.
#[inline(never)]
fn put_record_part(records: &[u8], command: &CommandFields, given: &mut Answer)
    ensures answer { given.new ≡ record_answer command.now.record_handle command.now.data_transfer_handle
        command.now.transfer_operation_flag command.now.request_count (records_in records.now) }
    ensures kind { IsAnswerTo (of_type PLATFORM GET_PDR) given.new }
{
    if command.request_count == 0 {
        *given = Answer::Refused(Code::ERROR_INVALID_DATA);
        return;
    }
    if command.transfer_operation_flag > GET_FIRST_PART {
        *given = refused(INVALID_TRANSFER_OPERATION);
        return;
    }
    let Some((pdr, after)) = first_record(from_asked(records, command.record_handle)) else {
        *given = refused(INVALID_RECORD_HANDLE);
        return;
    };
    match offset_asked(
        command.transfer_operation_flag,
        command.data_transfer_handle,
        pdr,
    ) {
        Some(offset) => put_part(
            first_handle(after),
            command.request_count,
            pdr,
            offset,
            given,
        ),
        None => *given = refused(INVALID_DATA_TRANSFER_HANDLE),
    }
}

/// The offset of the part that is asked for, where one begins there.
fn offset_asked(transfer_operation_flag: u8, data_transfer_handle: u32, pdr: &[u8]) -> Option<usize>
    ensures offset { result ≡ offset_asked transfer_operation_flag data_transfer_handle pdr.now }
    ensures within { IfSome result (λ offset. offset ≤ length pdr.now) }
{
    if transfer_operation_flag == GET_FIRST_PART {
        return Some(0);
    }
    let offset = data_transfer_handle as usize;
    if offset == 0 || offset >= pdr.len() {
        return None;
    }
    Some(offset)
}

/// Puts the part of the record from the offset on, and where the next one begins.
fn put_part(
    next_record_handle: u32,
    request_count: u16,
    pdr: &[u8],
    offset: usize,
    given: &mut Answer,
)
    requires within { offset ≤ length pdr.now }
    requires most { length pdr.now ≤ MAX_RECORD_BYTES }
    ensures answer { given.new ≡ part_answered next_record_handle request_count pdr.now (Some offset) }
    ensures kind { IsAnswerTo (of_type PLATFORM GET_PDR) given.new }
{
    // The part is written where it stays, so that it is not moved.
    *given = Answer::GetPdr {
        next_record_handle,
        next_data_transfer_handle: 0,
        part: RecordPart::empty(),
    };
    match given {
        Answer::GetPdr {
            next_data_transfer_handle,
            part,
            ..
        } => {
            put_bytes(pdr, offset, request_count, part);
            let end = offset + part.as_slice().len();
            if end < pdr.len() {
                *next_data_transfer_handle = end as u32;
            }
        }
        _ => unreachable!(),
    }
}

/// Puts the bytes of the record from the offset on, for a request of so many, with their flag and checksum.
fn put_bytes(pdr: &[u8], offset: usize, count: u16, part: &mut RecordPart)
    requires { offset ≤ length pdr.now }
    ensures { part.new ≡ part_of pdr.now offset count }
{
    let (_, rest) = pdr.split_at(offset);
    let count = usize::from(count).min(MAX_PART_BYTES).min(rest.len());
    let (bytes, more) = rest.split_at(count);
    let flag = flag_of_part(offset == 0, more.is_empty());
    let checksum = if flag.is_end() { Some(crc8(pdr)) } else { None };
    part.put(flag, bytes, checksum);
}

/// The flag of the first or a later part, with more to come or not.
fn flag_of_part(is_first: bool, is_last: bool) -> TransferFlag
    ensures { result ≡ flag_of_part is_first is_last }
{
    match (is_first, is_last) {
        (true, false) => TransferFlag::Start,
        (true, true) => TransferFlag::StartAndEnd,
        (false, false) => TransferFlag::Middle,
        (false, true) => TransferFlag::End,
    }
}
