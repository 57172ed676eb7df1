//! The decoded text of a command: its fields by name, as DSP0240 and DSP0248 name them.

ghost use Rattle.std.specs.Prelude.{◌≡◌, ◌++◌, OnOk};
ghost use Rattle.std.specs.List.{flat_map};
ghost use Rattle.mctpctl_decode.specs.CommandTexts.{command_text, set_text, version_text};

use crate::field_text::{push_field, push_hex_field, push_named, push_signed_field, push_word};
use crate::state_names::operation_name;
use mctp_packet::Memory;
use pldm_wire::{Command, SetStateField};

/// Adds the fields of a command, as DSP0240 and DSP0248 name them.
pub fn push_command(out: &mut Vec<u8>, command: &Command) -> Result<(), Memory>
    ensures { OnOk result (out.new.items ≡ out.old.items ++ command_text command.now) }
{
    match command {
        Command::SetTid { tid } => push_field(out, "tid", (*tid).into()),
        Command::GetTid | Command::GetPldmTypes | Command::GetPdrRepositoryInfo => Ok(()),
        Command::GetPldmVersion {
            data_transfer_handle,
            transfer_operation_flag,
            pldm_type,
        } => push_version(
            out,
            *data_transfer_handle,
            *transfer_operation_flag,
            *pldm_type,
        ),
        Command::GetPldmCommands { pldm_type, version } => {
            push_field(out, "type", (*pldm_type).into())?;
            push_hex_field(out, "version", version)
        }
        Command::GetSensorReading { sensor, rearm }
        | Command::GetStateSensorReadings { sensor, rearm } => {
            push_field(out, "sensor", (*sensor).into())?;
            push_field(out, "rearm", (*rearm).into())
        }
        Command::SetNumericEffecterValue { effecter, value } => {
            push_field(out, "effecter", (*effecter).into())?;
            push_signed_field(out, value.size().name(), value.value())
        }
        Command::GetNumericEffecterValue { effecter }
        | Command::GetStateEffecterStates { effecter } => {
            push_field(out, "effecter", (*effecter).into())
        }
        Command::SetStateEffecterStates { effecter, fields } => {
            push_field(out, "effecter", (*effecter).into())?;
            push_sets(out, fields.as_slice())
        }
        Command::GetPdr {
            record_handle,
            data_transfer_handle,
            transfer_operation_flag,
            request_count,
            record_change_number,
        } => {
            push_field(out, "record", (*record_handle).into())?;
            push_field(out, "transfer", (*data_transfer_handle).into())?;
            let flag = *transfer_operation_flag;
            push_named(out, operation_name(flag), flag)?;
            push_field(out, "count", (*request_count).into())?;
            push_field(out, "change", (*record_change_number).into())
        }
    }
}

/// Adds the fields of GetPLDMVersion.
fn push_version(out: &mut Vec<u8>, handle: u32, flag: u8, pldm_type: u8) -> Result<(), Memory>
    ensures { OnOk result (out.new.items ≡ out.old.items ++ version_text handle flag pldm_type) }
{
    push_field(out, "transfer", handle.into())?;
    push_named(out, operation_name(flag), flag)?;
    push_field(out, "type", pldm_type.into())
}

/// Adds what is asked of each field of a state effecter.
fn push_sets(out: &mut Vec<u8>, fields: &[SetStateField]) -> Result<(), Memory>
    ensures { OnOk result (out.new.items ≡ out.old.items ++ flat_map set_text fields.now) }
{
    for field in fields {
        push_set(out, field)?;
    }
    Ok(())
}

/// Adds what is asked of one field (DSP0248, "SetStateEffecterStates command", setRequest).
fn push_set(out: &mut Vec<u8>, field: &SetStateField) -> Result<(), Memory>
    ensures { OnOk result (out.new.items ≡ out.old.items ++ set_text field.now) }
{
    match field.set_request {
        0 => push_word(out, "noChange"),
        1 => push_field(out, "requestSet", field.state.into()),
        other => {
            push_field(out, "setRequest", other.into())?;
            push_field(out, "state", field.state.into())
        }
    }
}
