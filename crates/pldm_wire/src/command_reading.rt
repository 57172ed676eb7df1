//! The command in a request, or the completion code by which it is refused (DSP0240).

ghost use Rattle.pldm_wire.specs.CommandReading.{request_by};
ghost use Rattle.pldm_wire.specs.CommandTable.{platform_rows};
ghost use Rattle.std.specs.Prelude.{◌≡◌, Ok, IfOk};
ghost use Rattle.pldm_wire.specs.Commands.{CommandFields};
ghost use Rattle.pldm_wire.specs.CommandReading.{command_of};
ghost use Rattle.pldm_wire.specs.declared.command.Command.{Command as CommandValue};

use crate::base::base_command_in;
use crate::effecters::{
    get_numeric_effecter_value_in, get_state_effecter_states_in, set_numeric_effecter_value_in,
    set_state_effecter_states_in,
};
use crate::repository::{get_pdr_in, get_pdr_repository_info_in};
use crate::sensors::{get_sensor_reading_in, get_state_sensor_readings_in};
use crate::{
    BASE, Code, Command, GET_NUMERIC_EFFECTER_VALUE, GET_PDR, GET_PDR_REPOSITORY_INFO,
    GET_SENSOR_READING, GET_STATE_EFFECTER_STATES, GET_STATE_SENSOR_READINGS, Kind, PLATFORM,
    RequestRef, SET_NUMERIC_EFFECTER_VALUE, SET_STATE_EFFECTER_STATES,
};

/// The command that this request carries, or the completion code by which it is refused: ERROR_INVALID_PLDM_TYPE for a
/// PLDM type that this profile doesn't have, then ERROR_UNSUPPORTED_PLDM_CMD for a command that it doesn't have, then
/// ERROR_INVALID_LENGTH for another length of data than the command's. The data of two commands states its own length.
/// For these, fewer bytes than up to that statement are ERROR_INVALID_LENGTH, then a data size or a count that is not
/// valid is ERROR_INVALID_DATA, and then another length than the stated one is ERROR_INVALID_LENGTH (DSP0240, "Generic
/// PLDM completion codes"; the order is this profile's own).
// Inlined, as what it calls: a command is then put where it stays, and not moved there.
#[inline(always)]
pub fn read_command(request: &RequestRef<'_>) -> Result<Command, Code>
    ensures exact { result ≡ command_of request.now.kind request.now.rest }
    ensures found { IfOk result (λ c. CommandFields c request.now.kind request.now.rest) }
    ensures only { (c : CommandValue)
        → CommandFields c request.now.kind request.now.rest → result ≡ Ok c }
{
    command_in(request.kind(), request.data())
}

/// As `read_command`, check by check.
#[tactic(auto, unfolding(crate::specs::CommandReading::command_of))]
#[inline(always)]
fn command_in(kind: Kind, bytes: &[u8]) -> Result<Command, Code>
    ensures { result ≡ command_of kind bytes.now }
{
    match kind.pldm_type {
        BASE => base_command_in(kind.command, bytes),
        PLATFORM => platform_command_in(kind.command, bytes),
        _ => Err(Code::ERROR_INVALID_PLDM_TYPE),
    }
}

/// The command of platform monitoring and control (DSP0248) of this number that the data is.
#[inline(always)]
fn platform_command_in(command: u8, bytes: &[u8]) -> Result<Command, Code>
    ensures { result ≡ request_by platform_rows command bytes.now }
{
    match command {
        GET_SENSOR_READING => get_sensor_reading_in(bytes),
        GET_STATE_SENSOR_READINGS => get_state_sensor_readings_in(bytes),
        SET_NUMERIC_EFFECTER_VALUE => set_numeric_effecter_value_in(bytes),
        GET_NUMERIC_EFFECTER_VALUE => get_numeric_effecter_value_in(bytes),
        SET_STATE_EFFECTER_STATES => set_state_effecter_states_in(bytes),
        GET_STATE_EFFECTER_STATES => get_state_effecter_states_in(bytes),
        GET_PDR_REPOSITORY_INFO => get_pdr_repository_info_in(bytes),
        GET_PDR => get_pdr_in(bytes),
        _ => Err(Code::ERROR_UNSUPPORTED_PLDM_CMD),
    }
}
