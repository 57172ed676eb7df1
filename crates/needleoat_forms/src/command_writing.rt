//! The request that the struct of its fields says, written to a room of C.

ghost use Rattle.std.specs.Prelude.{◌≡◌};
ghost use Rattle.needleoat_forms.specs.Commands.{base_command_in, command_in, number_in, platform_command_in, request_in};
ghost use Rattle.needleoat_forms.specs.Written.{IsWritten};

use crate::CommandFields;
use crate::room::put_front;
use crate::states::sets_of;
use pldm_wire::{
    BASE, Command, GET_NUMERIC_EFFECTER_VALUE, GET_PDR, GET_PDR_REPOSITORY_INFO, GET_PLDM_COMMANDS,
    GET_PLDM_TYPES, GET_PLDM_VERSION, GET_SENSOR_READING, GET_STATE_EFFECTER_STATES,
    GET_STATE_SENSOR_READINGS, GET_TID, INSTANCE_IDS, MAX_REQUEST_BYTES, Number, PLATFORM,
    SET_NUMERIC_EFFECTER_VALUE, SET_STATE_EFFECTER_STATES, SET_TID, Size, write_command,
};

/// Writes the request of a command to the front of `out`, and returns its length in bytes (DSP0240,
/// DSP0248). Returns 0 and leaves `out` as it was where the instance ID is above 31, where this
/// profile has no such command, where there is no such data size or the value does not fit it, and
/// where a count of fields is not 1 to 8.
pub fn command_write(fields: &CommandFields, out: &mut [u8; MAX_REQUEST_BYTES]) -> u32
    ensures { IsWritten (request_in fields.now) result out.old out.new }
{
    if fields.instance_id >= INSTANCE_IDS {
        return 0;
    }
    match command_of(fields) {
        Some(command) => {
            pldm_wire::laws::messages_fit();
            put_front(out, &write_command(fields.instance_id, &command))
        }
        None => 0,
    }
}

/// The command, where there is one of this type and number and its fields are in range.
#[tactic(auto, unfolding(crate::specs::Commands::command_in))]
fn command_of(fields: &CommandFields) -> Option<Command>
    ensures { result ≡ command_in fields.now }
{
    match fields.pldm_type {
        BASE => base_command_of(fields),
        PLATFORM => platform_command_of(fields),
        _ => None,
    }
}

/// The command of messaging control and discovery (DSP0240).
fn base_command_of(fields: &CommandFields) -> Option<Command>
    ensures { result ≡ base_command_in fields.now }
{
    Some(match fields.command {
        SET_TID => Command::SetTid { tid: fields.tid },
        GET_TID => Command::GetTid,
        GET_PLDM_VERSION => Command::GetPldmVersion {
            data_transfer_handle: fields.data_transfer_handle,
            transfer_operation_flag: fields.transfer_operation_flag,
            pldm_type: fields.asked_type,
        },
        GET_PLDM_TYPES => Command::GetPldmTypes,
        GET_PLDM_COMMANDS => Command::GetPldmCommands {
            pldm_type: fields.asked_type,
            version: fields.version,
        },
        _ => return None,
    })
}

/// The command of platform monitoring and control (DSP0248).
fn platform_command_of(fields: &CommandFields) -> Option<Command>
    ensures { result ≡ platform_command_in fields.now }
{
    let sensor = fields.sensor;
    let effecter = fields.effecter;
    Some(match fields.command {
        GET_SENSOR_READING => Command::GetSensorReading {
            sensor,
            rearm: fields.rearm,
        },
        GET_STATE_SENSOR_READINGS => Command::GetStateSensorReadings {
            sensor,
            rearm: fields.rearm,
        },
        SET_NUMERIC_EFFECTER_VALUE => Command::SetNumericEffecterValue {
            effecter,
            value: number_of(fields.size, fields.value)?,
        },
        GET_NUMERIC_EFFECTER_VALUE => Command::GetNumericEffecterValue { effecter },
        SET_STATE_EFFECTER_STATES => Command::SetStateEffecterStates {
            effecter,
            fields: sets_of(fields.count, &fields.sets)?,
        },
        GET_STATE_EFFECTER_STATES => Command::GetStateEffecterStates { effecter },
        GET_PDR_REPOSITORY_INFO => Command::GetPdrRepositoryInfo,
        GET_PDR => Command::GetPdr {
            record_handle: fields.record_handle,
            data_transfer_handle: fields.data_transfer_handle,
            transfer_operation_flag: fields.transfer_operation_flag,
            request_count: fields.request_count,
            record_change_number: fields.record_change_number,
        },
        _ => return None,
    })
}

/// The number of this data size and value, where there is such a size and the value fits it.
pub(crate) fn number_of(size: u8, value: i64) -> Option<Number>
    ensures { result ≡ number_in size value }
{
    Number::new(Size::from_code(size)?, value)
}
