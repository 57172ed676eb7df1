//! The decoded text of an answer: its fields by name, as DSP0240 and DSP0248 name them.

ghost use Rattle.std.specs.Prelude.{◌≡◌, ◌++◌, OnOk};
ghost use Rattle.std.specs.List.{flat_map};
ghost use Rattle.mctpctl_decode.specs.AnswerTexts.{answer_text, effecter_field_text, effecter_operation_text, is_checksum_of, part_of_record_text, reading_text, refused_text, sensor_field_text, operation_text, sized_text, sizes_text, state_field, transfer_text, values_text, versions_text};

use crate::code_names::code_name;
use crate::field_text::{
    push_bits, push_code, push_field, push_hex_field, push_named, push_signed_field, push_word,
};
use crate::state_names::{
    effecter_state_name, events_name, repository_state_name, sensor_operation_name,
    sensor_state_name,
};
use byteorder::{ByteOrder, LittleEndian};
use mctp_packet::Memory;
use pldm_wire::{
    Answer, Code, EffecterStateField, EffecterValues, Kind, Number, RecordPart, SensorStateField,
    TransferFlag, VERSION_BYTES, crc32,
};

/// Adds the fields of an answer to a command of this type and number, as DSP0240 and DSP0248 name them.
pub fn push_answer(out: &mut Vec<u8>, kind: Kind, answer: &Answer) -> Result<(), Memory>
    ensures { OnOk result (out.new.items ≡ out.old.items ++ answer_text kind answer.now) }
{
    match answer {
        Answer::Refused(code) => push_refused(out, kind, *code),
        Answer::SetTid | Answer::SetNumericEffecterValue | Answer::SetStateEffecterStates => {
            push_word(out, "SUCCESS")
        }
        Answer::GetTid { tid } => push_field(out, "tid", (*tid).into()),
        Answer::GetPldmVersion {
            next_data_transfer_handle,
            versions,
        } => {
            push_versions(out, versions.as_slice())?;
            push_field(out, "next", (*next_data_transfer_handle).into())
        }
        Answer::GetPldmTypes { types } => {
            push_word(out, "types")?;
            push_bits(out, types)
        }
        Answer::GetPldmCommands { commands } => {
            push_word(out, "commands")?;
            push_bits(out, commands)
        }
        Answer::GetSensorReading {
            operational,
            sensor_event_message_enable,
            present,
            previous,
            event,
            reading,
        } => {
            push_reading(out, *reading, *present, *previous, *event)?;
            push_operation(out, *operational, *sensor_event_message_enable)
        }
        Answer::GetStateSensorReadings { fields } => push_sensor_fields(out, fields.as_slice()),
        Answer::GetNumericEffecterValue {
            operational,
            values,
        } => push_values(out, *operational, *values),
        Answer::GetStateEffecterStates { fields } => push_effecter_fields(out, fields.as_slice()),
        Answer::GetPdrRepositoryInfo {
            state,
            update_time,
            oem_update_time,
            record_count,
            repository_size,
            largest_record_size,
            timeout,
        } => {
            push_word(out, "state")?;
            push_named(out, repository_state_name(*state), *state)?;
            push_sizes(out, *record_count, *repository_size, *largest_record_size)?;
            push_hex_field(out, "updated", update_time)?;
            push_hex_field(out, "oem", oem_update_time)?;
            push_field(out, "timeout", (*timeout).into())
        }
        Answer::GetPdr {
            next_record_handle,
            next_data_transfer_handle,
            part,
        } => {
            push_field(out, "next", (*next_record_handle).into())?;
            push_field(out, "transfer", (*next_data_transfer_handle).into())?;
            push_part(out, part)
        }
    }
}

/// Adds versions, and their checksum apart, where the last four bytes are that of the ones before them (DSP0240,
/// "GetPLDMVersion command").
fn push_versions(out: &mut Vec<u8>, versions: &[u8]) -> Result<(), Memory>
    ensures { OnOk result (out.new.items ≡ out.old.items ++ versions_text versions.now) }
{
    let (front, last) = versions.split_at(versions.len().saturating_sub(VERSION_BYTES));
    if is_checksum_of(last, front) {
        push_hex_field(out, "versions", front)?;
        push_hex_field(out, "crc32", last)
    } else {
        push_hex_field(out, "versions", versions)
    }
}

/// Whether four bytes are the checksum of some before them.
fn is_checksum_of(last: &[u8], front: &[u8]) -> bool
    ensures { result ≡ is_checksum_of last.now front.now }
{
    !front.is_empty() && last.len() == VERSION_BYTES && LittleEndian::read_u32(last) == crc32(front)
}

/// Adds a refusal by its completion code.
fn push_refused(out: &mut Vec<u8>, kind: Kind, code: Code) -> Result<(), Memory>
    ensures { OnOk result (out.new.items ≡ out.old.items ++ refused_text kind code) }
{
    push_word(out, "refused")?;
    let code = code.get();
    push_code(out, code_name(kind, code), code)
}

/// Adds a numeric sensor's reading and its three states.
fn push_reading(
    out: &mut Vec<u8>,
    reading: Number,
    present: u8,
    previous: u8,
    event: u8,
) -> Result<(), Memory>
    ensures { OnOk result (out.new.items ≡ out.old.items ++ reading_text reading present previous event) }
{
    push_sized(out, "reading", reading)?;
    push_named(out, sensor_state_name(present), present)?;
    push_state(out, "previous", previous)?;
    push_state(out, "event", event)
}

/// Adds a number's data size, and the number after its name.
fn push_sized(out: &mut Vec<u8>, name: &str, number: Number) -> Result<(), Memory>
    ensures { OnOk result (out.new.items ≡ out.old.items ++ sized_text name.now number) }
{
    push_word(out, number.size().name())?;
    push_signed_field(out, name, number.value())
}

/// Adds a state of a numeric sensor after its name.
fn push_state(out: &mut Vec<u8>, name: &str, state: u8) -> Result<(), Memory>
    ensures { OnOk result (out.new.items ≡ out.old.items ++ state_field name.now state) }
{
    push_word(out, name)?;
    push_named(out, sensor_state_name(state), state)
}

/// Adds a numeric sensor's operational state, and which of its events are enabled.
fn push_operation(out: &mut Vec<u8>, operational: u8, enable: u8) -> Result<(), Memory>
    ensures { OnOk result (out.new.items ≡ out.old.items ++ operation_text operational enable) }
{
    push_word(out, "operational")?;
    push_named(out, sensor_operation_name(operational), operational)?;
    push_word(out, "events")?;
    push_named(out, events_name(enable), enable)
}

/// Adds the states of the fields of a state sensor.
fn push_sensor_fields(out: &mut Vec<u8>, fields: &[SensorStateField]) -> Result<(), Memory>
    ensures { OnOk result (out.new.items ≡ out.old.items ++ flat_map sensor_field_text fields.now) }
{
    for field in fields {
        push_sensor_field(out, field)?;
    }
    Ok(())
}

fn push_sensor_field(out: &mut Vec<u8>, field: &SensorStateField) -> Result<(), Memory>
    ensures { OnOk result (out.new.items ≡ out.old.items ++ sensor_field_text field.now) }
{
    push_field(out, "state", field.present.into())?;
    push_field(out, "previous", field.previous.into())?;
    push_field(out, "event", field.event.into())?;
    push_word(out, "operational")?;
    push_named(
        out,
        sensor_operation_name(field.operational),
        field.operational,
    )
}

/// Adds a numeric effecter's values.
fn push_values(out: &mut Vec<u8>, operational: u8, values: EffecterValues) -> Result<(), Memory>
    ensures { OnOk result (out.new.items ≡ out.old.items ++ values_text operational values) }
{
    push_sized(out, "value", values.present())?;
    push_signed_field(out, "pending", values.pending().value())?;
    push_effecter_state(out, operational)
}

/// Adds the states of the fields of a state effecter.
fn push_effecter_fields(out: &mut Vec<u8>, fields: &[EffecterStateField]) -> Result<(), Memory>
    ensures { OnOk result (out.new.items ≡ out.old.items ++ flat_map effecter_field_text fields.now) }
{
    for field in fields {
        push_effecter_field(out, field)?;
    }
    Ok(())
}

fn push_effecter_field(out: &mut Vec<u8>, field: &EffecterStateField) -> Result<(), Memory>
    ensures { OnOk result (out.new.items ≡ out.old.items ++ effecter_field_text field.now) }
{
    push_field(out, "state", field.present.into())?;
    push_field(out, "pending", field.pending.into())?;
    push_word(out, "operational")?;
    push_named(
        out,
        effecter_state_name(field.operational),
        field.operational,
    )
}

/// Adds the operational state of an effecter.
fn push_effecter_state(out: &mut Vec<u8>, operational: u8) -> Result<(), Memory>
    ensures { OnOk result (out.new.items ≡ out.old.items ++ effecter_operation_text operational) }
{
    push_word(out, "operational")?;
    push_named(out, effecter_state_name(operational), operational)
}

/// Adds how many records a repository has, its size and that of its largest record, in bytes.
fn push_sizes(out: &mut Vec<u8>, records: u32, size: u32, largest: u32) -> Result<(), Memory>
    ensures { OnOk result (out.new.items ≡ out.old.items ++ sizes_text records size largest) }
{
    push_field(out, "records", records.into())?;
    push_field(out, "bytes", size.into())?;
    push_field(out, "largest", largest.into())
}

/// Adds a part of a record: its place, its bytes, and the checksum of the whole record where it has one.
fn push_part(out: &mut Vec<u8>, part: &RecordPart) -> Result<(), Memory>
    ensures { OnOk result (out.new.items ≡ out.old.items ++ part_of_record_text part.now) }
{
    push_word(out, transfer_name(part.flag()))?;
    let bytes = part.as_slice();
    push_field(out, "count", bytes.len() as u64)?;
    push_hex_field(out, "data", bytes)?;
    match part.transfer_crc() {
        Some(crc) => push_hex_field(out, "crc", &[crc]),
        None => Ok(()),
    }
}

/// The name of a transfer flag (DSP0248, "GetPDR command", transferFlag).
fn transfer_name(flag: TransferFlag) -> &'static str
    ensures { result.now ≡ transfer_text flag }
{
    match flag {
        TransferFlag::Start => "Start",
        TransferFlag::Middle | TransferFlag::BaseMiddle => "Middle",
        TransferFlag::End => "End",
        TransferFlag::StartAndEnd => "StartAndEnd",
    }
}
