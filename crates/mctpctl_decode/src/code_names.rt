//! The names of completion codes, as the standards spell them.

ghost use Rattle.std.specs.Prelude.{◌≡◌, option_map};
ghost use Rattle.mctpctl_decode.specs.CodeNames.{base_code_name, code_name, commands_code_name, effecter_code_name, general_code_name, own_code_name, platform_code_name, record_code_name, sensor_code_name, state_code_name, states_code_name, version_code_name};

use crate::shared_codes::shared_code_name;
use pldm_wire::{
    BASE, GET_NUMERIC_EFFECTER_VALUE, GET_PDR, GET_PLDM_COMMANDS, GET_PLDM_VERSION,
    GET_SENSOR_READING, GET_STATE_EFFECTER_STATES, GET_STATE_SENSOR_READINGS, Kind, PLATFORM,
    SET_NUMERIC_EFFECTER_VALUE, SET_STATE_EFFECTER_STATES,
};

/// The name of a completion code of a command: one of the generic codes, or one of the command's own,
/// from 0x80 on (DSP0240, "Generic PLDM completion codes" and the tables of its commands; DSP0248, the
/// tables of its commands).
#[tactic(auto, unfolding(crate::specs::CodeNames::code_name))]
pub fn code_name(kind: Kind, code: u8) -> Option<&'static str>
    ensures { option_map (λ name. name.now) result ≡ code_name kind code }
{
    if code < 0x80 {
        general_code_name(code)
    } else {
        own_code_name(kind, code)
    }
}

/// The name of a generic code.
fn general_code_name(code: u8) -> Option<&'static str>
    ensures { option_map (λ name. name.now) result ≡ general_code_name code }
{
    match code {
        5 => Some("ERROR_UNSUPPORTED_PLDM_CMD"),
        0x20 => Some("ERROR_INVALID_PLDM_TYPE"),
        _ => shared_code_name(code),
    }
}

/// The name of a code of a command's own.
fn own_code_name(kind: Kind, code: u8) -> Option<&'static str>
    ensures { option_map (λ name. name.now) result ≡ own_code_name kind code }
{
    match kind.pldm_type {
        BASE => base_code_name(kind.command, code),
        PLATFORM => platform_code_name(kind.command, code),
        _ => None,
    }
}

fn base_code_name(command: u8, code: u8) -> Option<&'static str>
    ensures { option_map (λ name. name.now) result ≡ base_code_name command code }
{
    match command {
        GET_PLDM_VERSION => version_code_name(code),
        GET_PLDM_COMMANDS => commands_code_name(code),
        _ => None,
    }
}

fn platform_code_name(command: u8, code: u8) -> Option<&'static str>
    ensures { option_map (λ name. name.now) result ≡ platform_code_name command code }
{
    match command {
        GET_SENSOR_READING => sensor_code_name(code),
        GET_STATE_SENSOR_READINGS => state_code_name(code),
        SET_NUMERIC_EFFECTER_VALUE => effecter_code_name(code),
        GET_NUMERIC_EFFECTER_VALUE => effecter_code_name(code),
        SET_STATE_EFFECTER_STATES => states_code_name(code),
        GET_STATE_EFFECTER_STATES => effecter_code_name(code),
        GET_PDR => record_code_name(code),
        _ => None,
    }
}

/// GetPLDMVersion (DSP0240, "GetPLDMVersion command").
fn version_code_name(code: u8) -> Option<&'static str>
    ensures { option_map (λ name. name.now) result ≡ version_code_name code }
{
    match code {
        0x80 => Some("INVALID_DATA_TRANSFER_HANDLE"),
        0x81 => Some("INVALID_TRANSFER_OPERATION_FLAG"),
        0x83 => Some("INVALID_PLDM_TYPE_IN_REQUEST_DATA"),
        _ => None,
    }
}

/// GetPLDMCommands (DSP0240, "GetPLDMCommands command").
fn commands_code_name(code: u8) -> Option<&'static str>
    ensures { option_map (λ name. name.now) result ≡ commands_code_name code }
{
    match code {
        0x83 => Some("INVALID_PLDM_TYPE_IN_REQUEST_DATA"),
        0x84 => Some("INVALID_PLDM_VERSION_IN_REQUEST_DATA"),
        _ => None,
    }
}

/// GetSensorReading (DSP0248, "GetSensorReading command").
fn sensor_code_name(code: u8) -> Option<&'static str>
    ensures { option_map (λ name. name.now) result ≡ sensor_code_name code }
{
    match code {
        0x80 => Some("INVALID_SENSOR_ID"),
        0x81 => Some("REARM_UNAVAILABLE_IN_PRESENT_STATE"),
        _ => None,
    }
}

/// GetStateSensorReadings (DSP0248, "GetStateSensorReadings command").
fn state_code_name(code: u8) -> Option<&'static str>
    ensures { option_map (λ name. name.now) result ≡ state_code_name code }
{
    match code {
        0x80 => Some("INVALID_SENSOR_ID"),
        _ => None,
    }
}

/// The commands of one effecter that ask, and SetNumericEffecterValue (DSP0248, "SetNumericEffecterValue
/// command", "GetNumericEffecterValue command" and "GetStateEffecterStates command").
fn effecter_code_name(code: u8) -> Option<&'static str>
    ensures { option_map (λ name. name.now) result ≡ effecter_code_name code }
{
    match code {
        0x80 => Some("INVALID_EFFECTER_ID"),
        _ => None,
    }
}

/// SetStateEffecterStates (DSP0248, "SetStateEffecterStates command").
fn states_code_name(code: u8) -> Option<&'static str>
    ensures { option_map (λ name. name.now) result ≡ states_code_name code }
{
    match code {
        0x80 => Some("INVALID_EFFECTER_ID"),
        0x81 => Some("INVALID_STATE_VALUE"),
        0x82 => Some("UNSUPPORTED_EFFECTERSTATE"),
        _ => None,
    }
}

/// GetPDR (DSP0248, "GetPDR command").
fn record_code_name(code: u8) -> Option<&'static str>
    ensures { option_map (λ name. name.now) result ≡ record_code_name code }
{
    match code {
        0x80 => Some("INVALID_DATA_TRANSFER_HANDLE"),
        0x81 => Some("INVALID_TRANSFER_OPERATION_FLAG"),
        0x82 => Some("INVALID_RECORD_HANDLE"),
        0x83 => Some("INVALID_RECORD_CHANGE_NUMBER"),
        0x84 => Some("TRANSFER_TIMEOUT"),
        0x85 => Some("REPOSITORY_UPDATE_IN_PROGRESS"),
        _ => None,
    }
}
