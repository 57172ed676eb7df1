//! The response that the struct of its fields says, written to a room of C.

ghost use Rattle.std.specs.Prelude.{◌≡◌, OnSome, option_map};
ghost use Rattle.pldm_wire.specs.Answers.{IsAnswerTo};
ghost use Rattle.pldm_wire.specs.Crc.{crc};
ghost use Rattle.pldm_wire.specs.Kinds.{IsKind, of_type};
ghost use Rattle.pldm_wire.specs.Sizes.{size_of};
ghost use Rattle.pldm_wire.specs.TransferFlags.{flag_of};
ghost use Rattle.needleoat_forms.specs.Answers.{answer_in, base_answer_in, bytes_in, checksum_in, effecter_values_in, kind_in, part_answer_in, platform_answer_in, response_in, success_in, version_answer_in};
ghost use Rattle.needleoat_forms.specs.Written.{IsWritten};

use crate::AnswerFields;
use crate::command_writing::number_of;
use crate::room::put_front;
use crate::states::{effecter_states_of, sensor_states_of};
use mctp_packet::MAX_MESSAGE_BYTES;
use pldm_wire::{
    Answer, BASE, Code, EffecterValues, GET_NUMERIC_EFFECTER_VALUE, GET_PDR,
    GET_PDR_REPOSITORY_INFO, GET_PLDM_COMMANDS, GET_PLDM_TYPES, GET_PLDM_VERSION,
    GET_SENSOR_READING, GET_STATE_EFFECTER_STATES, GET_STATE_SENSOR_READINGS, GET_TID,
    INSTANCE_IDS, Kind, MAX_PART_BYTES, Number, PLATFORM, RecordPart, SET_NUMERIC_EFFECTER_VALUE,
    SET_STATE_EFFECTER_STATES, SET_TID, Size, TransferFlag, VersionData, crc8, write_answer,
};

/// How many PLDM types there are: a message's header has six bits for its type (DSP0240, "PLDM message
/// fields").
const PLDM_TYPES: u8 = 64;

/// Writes the response of an answer to the front of `out`, and returns its length in bytes (DSP0240,
/// DSP0248). Returns 0 and leaves `out` as it was where the instance ID is above 31 or the PLDM type
/// above 63, and, where the completion code is 0, where this profile has no such command or a field
/// of its answer is out of range: a data size, a value that does not fit it, a count, a length or a
/// transfer flag.
pub fn answer_write(fields: &AnswerFields, out: &mut [u8; MAX_MESSAGE_BYTES]) -> u32
    ensures { IsWritten (response_in fields.now) result out.old out.new }
{
    if fields.instance_id >= INSTANCE_IDS {
        return 0;
    }
    let mut answer = Answer::SetTid;
    match put_answer_of(fields, &mut answer) {
        Some(()) => {
            let kind = Kind {
                pldm_type: fields.pldm_type,
                command: fields.command,
            };
            put_front(out, &write_answer(fields.instance_id, kind, &answer))
        }
        None => 0,
    }
}

/// Puts the answer with these fields into `answer`, where there is an answer of this kind and code and they are in
/// range. The instance ID is not looked at. Where there is none, what `answer` then holds is not specified.
#[tactic(auto, unfolding(crate::specs::Answers::answer_in))]
pub fn put_answer_of(fields: &AnswerFields, answer: &mut Answer) -> Option<()>
    ensures answer { option_map (λ _. answer.new) result ≡ answer_in fields.now }
    ensures kind { OnSome result (IsKind (kind_in fields.now) × IsAnswerTo (kind_in fields.now) answer.new) }
{
    if fields.pldm_type >= PLDM_TYPES {
        return None;
    }
    match Code::new(fields.code) {
        Some(code) => *answer = Answer::Refused(code),
        None => put_success_of(fields, answer)?,
    }
    Some(())
}

/// Puts the answer after SUCCESS.
fn put_success_of(fields: &AnswerFields, answer: &mut Answer) -> Option<()>
    ensures answer { option_map (λ _. answer.new) result ≡ success_in fields.now }
    ensures kind { OnSome result (IsAnswerTo (kind_in fields.now) answer.new) }
{
    match fields.pldm_type {
        BASE => put_base_answer_of(fields, answer),
        PLATFORM => put_platform_answer_of(fields, answer),
        _ => None,
    }
}

/// Puts the answer to a command of messaging control and discovery (DSP0240).
fn put_base_answer_of(fields: &AnswerFields, answer: &mut Answer) -> Option<()>
    requires { fields.now.pldm_type ≡ BASE }
    ensures answer { option_map (λ _. answer.new) result ≡ base_answer_in fields.now }
    ensures kind { OnSome result (IsAnswerTo (kind_in fields.now) answer.new) }
{
    match fields.command {
        SET_TID => *answer = Answer::SetTid,
        GET_TID => *answer = Answer::GetTid { tid: fields.tid },
        GET_PLDM_VERSION => put_version_answer_of(fields, answer)?,
        GET_PLDM_TYPES => {
            *answer = Answer::GetPldmTypes {
                types: fields.types,
            };
        }
        GET_PLDM_COMMANDS => {
            *answer = Answer::GetPldmCommands {
                commands: fields.commands,
            };
        }
        _ => return None,
    }
    Some(())
}

/// Puts the answer to GetPLDMVersion.
// Not inlined: the bytes are made here, and no second place for them is left on the caller's stack.
#[inline(never)]
fn put_version_answer_of(fields: &AnswerFields, answer: &mut Answer) -> Option<()>
    ensures answer { option_map (λ _. answer.new) result ≡ version_answer_in fields.now (bytes_in fields.now) }
    ensures kind { OnSome result (IsAnswerTo (of_type BASE GET_PLDM_VERSION) answer.new) }
{
    *answer = Answer::GetPldmVersion {
        next_data_transfer_handle: fields.next_data_transfer_handle,
        versions: VersionData::new(bytes_of(fields)?)?,
    };
    Some(())
}

/// As many bytes as the length says, where there are so many.
fn bytes_of(fields: &AnswerFields) -> Option<&[u8]>
    ensures { option_map (λ bytes. bytes.now) result ≡ bytes_in fields.now }
{
    let length = fields.length as usize;
    if length > MAX_PART_BYTES {
        return None;
    }
    Some(&fields.bytes[..length])
}

/// Puts the answer to a command of platform monitoring and control (DSP0248).
fn put_platform_answer_of(fields: &AnswerFields, answer: &mut Answer) -> Option<()>
    requires { fields.now.pldm_type ≡ PLATFORM }
    ensures answer { option_map (λ _. answer.new) result ≡ platform_answer_in fields.now }
    ensures kind { OnSome result (IsAnswerTo (kind_in fields.now) answer.new) }
{
    *answer = match fields.command {
        GET_SENSOR_READING => Answer::GetSensorReading {
            operational: fields.operational,
            sensor_event_message_enable: fields.sensor_event_message_enable,
            present: fields.present,
            previous: fields.previous,
            event: fields.event,
            reading: number_of(fields.size, fields.value)?,
        },
        GET_STATE_SENSOR_READINGS => Answer::GetStateSensorReadings {
            fields: sensor_states_of(fields.count, &fields.sensor_states)?,
        },
        SET_NUMERIC_EFFECTER_VALUE => Answer::SetNumericEffecterValue,
        GET_NUMERIC_EFFECTER_VALUE => Answer::GetNumericEffecterValue {
            operational: fields.operational,
            values: values_of(fields)?,
        },
        SET_STATE_EFFECTER_STATES => Answer::SetStateEffecterStates,
        GET_STATE_EFFECTER_STATES => Answer::GetStateEffecterStates {
            fields: effecter_states_of(fields.count, &fields.effecter_states)?,
        },
        GET_PDR_REPOSITORY_INFO => Answer::GetPdrRepositoryInfo {
            state: fields.repository_state,
            update_time: fields.update_time,
            oem_update_time: fields.oem_update_time,
            record_count: fields.record_count,
            repository_size: fields.repository_size,
            largest_record_size: fields.largest_record_size,
            timeout: fields.timeout,
        },
        GET_PDR => return put_part_answer_of(fields, answer),
        _ => return None,
    };
    Some(())
}

/// Puts the answer to GetPDR.
// Not inlined, as that to GetPLDMVersion.
#[inline(never)]
fn put_part_answer_of(fields: &AnswerFields, answer: &mut Answer) -> Option<()>
    ensures answer { option_map (λ _. answer.new) result ≡ part_answer_in fields.now }
    ensures kind { OnSome result (IsAnswerTo (of_type PLATFORM GET_PDR) answer.new) }
{
    let flag = TransferFlag::new(fields.transfer_flag)?;
    let bytes = bytes_of(fields)?;
    // The part is written where it stays, so that it is not moved.
    *answer = Answer::GetPdr {
        next_record_handle: fields.next_record_handle,
        next_data_transfer_handle: fields.next_data_transfer_handle,
        part: RecordPart::empty(),
    };
    match answer {
        Answer::GetPdr { part, .. } => {
            part.put(flag, bytes, checksum_of(flag, fields.transfer_crc));
        }
        _ => unreachable!(),
    }
    Some(())
}

/// The pending and the present value of GetNumericEffecterValue's answer.
fn values_of(fields: &AnswerFields) -> Option<EffecterValues>
    ensures { result ≡ effecter_values_in (size_of fields.now.size) fields.now }
{
    let size = Size::from_code(fields.size)?;
    let pending = Number::new(size, fields.pending_value)?;
    let present = Number::new(size, fields.value)?;
    EffecterValues::new(pending, present)
}

/// The checksum, where it follows a part with this flag.
fn checksum_of(flag: TransferFlag, checksum: u8) -> Option<u8>
    ensures { result ≡ checksum_in flag checksum }
{
    if flag.is_end() { Some(checksum) } else { None }
}

/// The checksum of a whole record, as the last part of a GetPDR answer carries it (DSP0248, "GetPDR
/// command").
pub fn record_checksum(bytes: &[u8]) -> u8
    ensures { result ≡ crc bytes.now }
{
    crc8(bytes)
}
