//! The data of the commands of messaging control and discovery (DSP0240) and of their answers, read and written.

ghost use Rattle.pldm_wire.specs.CommandReading.{data_in, request_by, request_in, told_as};
ghost use Rattle.pldm_wire.specs.AnswerReading.{answer_in};
ghost use Rattle.pldm_wire.specs.declared.answer_reading.AnswerFault.TheVariants.{Length, Value};
ghost use Rattle.pldm_wire.specs.CommandTable.{base_rows, get_pldm_commands, get_pldm_types, get_pldm_version, get_tid, no_data, set_tid};
ghost use Rattle.std.specs.Prelude.{◌≡◌, ◌≤◌, [], ◌∷◌, ◌++◌, length};
ghost use Rattle.arrayvec.specs.ArrayVec.{array_vec_len};
ghost use Rattle.byteorder.specs.Endian.{little_bytes};
ghost use Rattle.pldm_wire.specs.Versions.{IsVersionData};

use crate::places::{array_in, u32_in};
use crate::pushes::{push_array, push_bytes, push_u32};
use crate::{
    Answer, AnswerFault, COMMANDS_BYTES, Code, Command, GET_PLDM_COMMANDS, GET_PLDM_TYPES,
    GET_PLDM_VERSION, GET_TID, REQUEST_HEADER, RESPONSE_HEADER, SET_TID, START_AND_END,
    TYPES_BYTES, VERSION_BYTES, VersionData,
};
use mctp_packet::Body;

/// The command of this number that the data is.
#[inline(always)]
pub(crate) fn base_command_in(command: u8, bytes: &[u8]) -> Result<Command, Code>
    ensures { result ≡ request_by base_rows command bytes.now }
{
    match command {
        SET_TID => set_tid_in(bytes),
        GET_TID => get_tid_in(bytes),
        GET_PLDM_VERSION => get_pldm_version_in(bytes),
        GET_PLDM_TYPES => get_pldm_types_in(bytes),
        GET_PLDM_COMMANDS => get_pldm_commands_in(bytes),
        _ => Err(Code::ERROR_UNSUPPORTED_PLDM_CMD),
    }
}

/// SetTID: the terminus ID.
fn set_tid_in(bytes: &[u8]) -> Result<Command, Code>
    ensures { result ≡ request_in set_tid bytes.now }
{
    match bytes {
        [tid] => Ok(Command::SetTid { tid: *tid }),
        _ => Err(Code::ERROR_INVALID_LENGTH),
    }
}

/// GetTID: no data.
fn get_tid_in(bytes: &[u8]) -> Result<Command, Code>
    ensures { result ≡ request_in get_tid bytes.now }
{
    match bytes {
        [] => Ok(Command::GetTid),
        _ => Err(Code::ERROR_INVALID_LENGTH),
    }
}

/// GetPLDMVersion: transfer handle, operation, PLDM type.
fn get_pldm_version_in(bytes: &[u8]) -> Result<Command, Code>
    ensures { result ≡ request_in get_pldm_version bytes.now }
{
    match bytes {
        [_, _, _, _, transfer_operation_flag, pldm_type] => Ok(Command::GetPldmVersion {
            data_transfer_handle: u32_in(bytes, 0),
            transfer_operation_flag: *transfer_operation_flag,
            pldm_type: *pldm_type,
        }),
        _ => Err(Code::ERROR_INVALID_LENGTH),
    }
}

/// GetPLDMTypes: no data.
fn get_pldm_types_in(bytes: &[u8]) -> Result<Command, Code>
    ensures { result ≡ request_in get_pldm_types bytes.now }
{
    match bytes {
        [] => Ok(Command::GetPldmTypes),
        _ => Err(Code::ERROR_INVALID_LENGTH),
    }
}

/// GetPLDMCommands: PLDM type, version.
fn get_pldm_commands_in(bytes: &[u8]) -> Result<Command, Code>
    ensures { result ≡ request_in get_pldm_commands bytes.now }
{
    match bytes {
        [pldm_type, _, _, _, _] => Ok(Command::GetPldmCommands {
            pldm_type: *pldm_type,
            version: array_in(bytes, 1),
        }),
        _ => Err(Code::ERROR_INVALID_LENGTH),
    }
}

/// GetPLDMVersion's data after a request's header.
pub(crate) fn push_get_pldm_version(
    body: &mut Body,
    data_transfer_handle: u32,
    transfer_operation_flag: u8,
    pldm_type: u8,
)
    requires { array_vec_len body.old ≤ REQUEST_HEADER }
    ensures { body.new.items ≡ body.old.items ++ (little_bytes 4 data_transfer_handle ++ transfer_operation_flag ∷
        pldm_type ∷ []) }
{
    push_u32(body, data_transfer_handle);
    body.push(transfer_operation_flag);
    body.push(pldm_type);
}

/// GetPLDMCommands' data after a request's header.
pub(crate) fn push_get_pldm_commands(body: &mut Body, pldm_type: u8, version: &[u8; VERSION_BYTES])
    requires { array_vec_len body.old ≤ REQUEST_HEADER }
    ensures items { body.new.items ≡ body.old.items ++ (pldm_type ∷ version.now) }
    ensures range { length version.now ≡ VERSION_BYTES }
{
    body.push(pldm_type);
    push_array(body, version);
}

/// An answer with no data.
pub(crate) fn no_data_in(answer: Answer, bytes: &[u8]) -> Result<Answer, AnswerFault>
    ensures { result ≡ told_as Length Value (data_in (no_data answer) bytes.now) }
{
    match bytes {
        [] => Ok(answer),
        _ => Err(AnswerFault::Length),
    }
}

/// GetTID's answer: the terminus ID.
pub(crate) fn tid_answer_in(bytes: &[u8]) -> Result<Answer, AnswerFault>
    ensures { result ≡ answer_in get_tid bytes.now }
{
    match bytes {
        [tid] => Ok(Answer::GetTid { tid: *tid }),
        _ => Err(AnswerFault::Length),
    }
}

/// GetPLDMVersion's answer: next transfer handle, transfer flag, version data.
// Not inlined, so that the answer is written where it is wanted and not copied there.
#[inline(never)]
pub(crate) fn version_answer_in(bytes: &[u8]) -> Result<Answer, AnswerFault>
    ensures { result ≡ answer_in get_pldm_version bytes.now }
{
    if bytes.len() < 5 {
        return Err(AnswerFault::Length);
    }
    let (fixed, versions) = bytes.split_at(5);
    if bytes[4] != START_AND_END {
        return Err(AnswerFault::Value);
    }
    match VersionData::new(versions) {
        Some(versions) => Ok(Answer::GetPldmVersion {
            next_data_transfer_handle: u32_in(fixed, 0),
            versions,
        }),
        None => Err(AnswerFault::Length),
    }
}

/// GetPLDMTypes' answer: a bit for each PLDM type.
// Not inlined, so that the answer is written where it is wanted and not copied there.
#[inline(never)]
#[tactic(auto, using(crate::proofs::Placed::take_bytes))]
pub(crate) fn types_answer_in(bytes: &[u8]) -> Result<Answer, AnswerFault>
    ensures { result ≡ answer_in get_pldm_types bytes.now }
{
    if bytes.len() != TYPES_BYTES {
        return Err(AnswerFault::Length);
    }
    Ok(Answer::GetPldmTypes {
        types: array_in(bytes, 0),
    })
}

/// GetPLDMCommands' answer: a bit for each command.
// Not inlined, so that the answer is written where it is wanted and not copied there.
#[inline(never)]
#[tactic(auto, using(crate::proofs::Placed::take_bytes))]
pub(crate) fn commands_answer_in(bytes: &[u8]) -> Result<Answer, AnswerFault>
    ensures { result ≡ answer_in get_pldm_commands bytes.now }
{
    if bytes.len() != COMMANDS_BYTES {
        return Err(AnswerFault::Length);
    }
    Ok(Answer::GetPldmCommands {
        commands: array_in(bytes, 0),
    })
}

/// The data of GetPLDMVersion's answer after a response's header.
pub(crate) fn push_version_answer(
    body: &mut Body,
    next_data_transfer_handle: u32,
    versions: &VersionData,
)
    requires { array_vec_len body.old ≤ RESPONSE_HEADER }
    ensures items { body.new.items ≡ body.old.items
        ++ (little_bytes 4 next_data_transfer_handle ++ START_AND_END ∷ versions.now) }
    ensures range { IsVersionData versions.now }
{
    push_u32(body, next_data_transfer_handle);
    body.push(START_AND_END);
    push_bytes(body, versions.as_slice());
}
