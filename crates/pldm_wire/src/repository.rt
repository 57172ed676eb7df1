//! The data of the commands of the PDR repository (DSP0248) and of their answers, read and written.

ghost use Rattle.pldm_wire.specs.CommandReading.{request_in};
ghost use Rattle.pldm_wire.specs.AnswerReading.{answer_in};
ghost use Rattle.pldm_wire.specs.CommandTable.{get_pdr, get_pdr_repository_info};
ghost use Rattle.std.specs.Prelude.{◌≡◌, ◌+◌, ◌<◌, ◌≤◌, [], ◌∷◌, ◌++◌, length};
ghost use Rattle.arrayvec.specs.ArrayVec.{array_vec_len};
ghost use Rattle.byteorder.specs.Endian.{little_bytes};
ghost use Rattle.pldm_wire.specs.TransferFlags.{flag_number};
ghost use Rattle.pldm_wire.specs.RecordParts.{IsPart, checksum_bytes};

use crate::places::{array_in, u16_in, u32_in};
use crate::pushes::{push_array, push_bytes, push_u16, push_u32};
use crate::{
    Answer, AnswerFault, Code, Command, MAX_PART_BYTES, REQUEST_HEADER, RESPONSE_HEADER,
    RecordPart, TIME_BYTES, TransferFlag,
};
use mctp_packet::{Body, MAX_MESSAGE_BYTES};

/// GetPDRRepositoryInfo: no data.
pub(crate) fn get_pdr_repository_info_in(bytes: &[u8]) -> Result<Command, Code>
    ensures { result ≡ request_in get_pdr_repository_info bytes.now }
{
    match bytes {
        [] => Ok(Command::GetPdrRepositoryInfo),
        _ => Err(Code::ERROR_INVALID_LENGTH),
    }
}

/// GetPDR: record handle, transfer handle, operation, request count, change number.
pub(crate) fn get_pdr_in(bytes: &[u8]) -> Result<Command, Code>
    ensures { result ≡ request_in get_pdr bytes.now }
{
    if bytes.len() != 13 {
        return Err(Code::ERROR_INVALID_LENGTH);
    }
    Ok(Command::GetPdr {
        record_handle: u32_in(bytes, 0),
        data_transfer_handle: u32_in(bytes, 4),
        transfer_operation_flag: bytes[8],
        request_count: u16_in(bytes, 9),
        record_change_number: u16_in(bytes, 11),
    })
}

/// GetPDR's data after a request's header.
pub(crate) fn push_get_pdr(
    body: &mut Body,
    record_handle: u32,
    data_transfer_handle: u32,
    transfer_operation_flag: u8,
    request_count: u16,
    record_change_number: u16,
)
    requires { array_vec_len body.old ≤ REQUEST_HEADER }
    ensures { body.new.items ≡ body.old.items
        ++ (little_bytes 4 record_handle ++ little_bytes 4 data_transfer_handle
        ++ transfer_operation_flag ∷ little_bytes 2 request_count ++ little_bytes 2 record_change_number) }
{
    push_u32(body, record_handle);
    push_u32(body, data_transfer_handle);
    body.push(transfer_operation_flag);
    push_u16(body, request_count);
    push_u16(body, record_change_number);
}

/// GetPDRRepositoryInfo's answer: state, update time, OEM update time, record count, repository
/// size, largest record, timeout.
// Not inlined, so that the answer is written where it is wanted and not copied there.
#[inline(never)]
#[tactic(auto, using(crate::proofs::Placed::take_bytes))]
pub(crate) fn repository_answer_in(bytes: &[u8]) -> Result<Answer, AnswerFault>
    ensures { result ≡ answer_in get_pdr_repository_info bytes.now }
{
    if bytes.len() != 40 {
        return Err(AnswerFault::Length);
    }
    Ok(Answer::GetPdrRepositoryInfo {
        state: bytes[0],
        update_time: array_in(bytes, 1),
        oem_update_time: array_in(bytes, 14),
        record_count: u32_in(bytes, 27),
        repository_size: u32_in(bytes, 31),
        largest_record_size: u32_in(bytes, 35),
        timeout: bytes[39],
    })
}

/// GetPDR's answer: next record handle, next transfer handle, transfer flag, response count, as many
/// bytes, and the checksum where the flag is End.
// Not inlined, so that the answer is written where it is wanted and not copied there.
#[inline(never)]
pub(crate) fn part_answer_in(bytes: &[u8]) -> Result<Answer, AnswerFault>
    ensures { result ≡ answer_in get_pdr bytes.now }
{
    if bytes.len() < 11 {
        return Err(AnswerFault::Length);
    }
    let Some(flag) = TransferFlag::new(bytes[8]) else {
        return Err(AnswerFault::Value);
    };
    let count = usize::from(u16_in(bytes, 9));
    if count > MAX_PART_BYTES {
        return Err(AnswerFault::Value);
    }
    if bytes.len() < 11 + count {
        return Err(AnswerFault::Length);
    }
    let (_, rest) = bytes.split_at(11);
    let (part, checksum) = rest.split_at(count);
    let transfer_crc = match (flag.is_end(), checksum) {
        (false, []) => None,
        (true, [transfer_crc]) => Some(*transfer_crc),
        _ => return Err(AnswerFault::Length),
    };
    Ok(Answer::GetPdr {
        next_record_handle: u32_in(bytes, 0),
        next_data_transfer_handle: u32_in(bytes, 4),
        part: RecordPart::of(flag, part, transfer_crc),
    })
}

/// The state and the times of GetPDRRepositoryInfo's answer after a response's header.
pub(crate) fn push_repository_times(
    body: &mut Body,
    state: u8,
    update_time: &[u8; TIME_BYTES],
    oem_update_time: &[u8; TIME_BYTES],
)
    requires { array_vec_len body.old ≤ RESPONSE_HEADER }
    ensures items { body.new.items
        ≡ body.old.items ++ (state ∷ update_time.now ++ oem_update_time.now) }
    ensures len { array_vec_len body.new ≡ array_vec_len body.old + 1 + TIME_BYTES + TIME_BYTES }
    ensures update_range { length update_time.now ≡ TIME_BYTES }
    ensures oem_range { length oem_update_time.now ≡ TIME_BYTES }
{
    body.push(state);
    push_array(body, update_time);
    push_array(body, oem_update_time);
}

/// The counts and the timeout of GetPDRRepositoryInfo's answer.
pub(crate) fn push_repository_counts(
    body: &mut Body,
    record_count: u32,
    repository_size: u32,
    largest_record_size: u32,
    timeout: u8,
)
    requires { array_vec_len body.old ≤ RESPONSE_HEADER + 1 + TIME_BYTES + TIME_BYTES }
    ensures { body.new.items ≡ body.old.items
        ++ (little_bytes 4 record_count ++ little_bytes 4 repository_size
        ++ little_bytes 4 largest_record_size ++ timeout ∷ []) }
{
    push_u32(body, record_count);
    push_u32(body, repository_size);
    push_u32(body, largest_record_size);
    body.push(timeout);
}

/// The data of GetPDR's answer after a response's header.
pub(crate) fn push_part_answer(
    body: &mut Body,
    next_record_handle: u32,
    next_data_transfer_handle: u32,
    part: &RecordPart,
)
    requires { array_vec_len body.old ≤ RESPONSE_HEADER }
    ensures items { body.new.items ≡ body.old.items
        ++ (little_bytes 4 next_record_handle ++ little_bytes 4 next_data_transfer_handle
        ++ flag_number part.now.flag ∷ little_bytes 2 (length part.now.bytes)
        ++ part.now.bytes ++ checksum_bytes part.now.transfer_crc) }
    ensures range { IsPart part.now }
{
    push_u32(body, next_record_handle);
    push_u32(body, next_data_transfer_handle);
    body.push(part.flag().number());
    let bytes = part.as_slice();
    push_u16(body, bytes.len() as u16);
    push_bytes(body, bytes);
    push_checksum(body, part.transfer_crc());
}

/// Adds the checksum, if there is one.
fn push_checksum(body: &mut Body, checksum: Option<u8>)
    requires { array_vec_len body.old < MAX_MESSAGE_BYTES }
    ensures { body.new.items ≡ body.old.items ++ checksum_bytes checksum }
{
    if let Some(checksum) = checksum {
        body.push(checksum);
    }
}
