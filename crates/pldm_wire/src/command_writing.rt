//! The message of a request with a command (DSP0240, "PLDM message fields").

ghost use Rattle.pldm_wire.specs.declared.assigned.TheConstants.{INSTANCE_IDS};
ghost use Rattle.std.specs.Prelude.{◌≡◌, ◌<◌, ◌≤◌, ◌++◌};
ghost use Rattle.arrayvec.specs.ArrayVec.{array_vec_len};
ghost use Rattle.pldm_wire.specs.Commands.{CommandFields, IsCommand, command_data, command_message, kind_of};
ghost use Rattle.pldm_wire.specs.Messages.{IsRequest};

use crate::base::{push_get_pldm_commands, push_get_pldm_version};
use crate::effecters::{push_set_numeric_effecter_value, push_set_state_effecter_states};
use crate::header::put_head;
use crate::pushes::push_u16;
use crate::repository::push_get_pdr;
use crate::sensors::{push_get_sensor_reading, push_get_state_sensor_readings};
use crate::{Command, REQUEST_HEADER};
use mctp_packet::Body;

/// The request of this instance ID, 0 to 31, that carries the command: the header with its reserved
/// bit 0, then the command's data with its reserved bytes 0 (DSP0240, "PLDM message fields").
pub fn write_command(id: u8, command: &Command) -> Body
    requires { id < INSTANCE_IDS }
    ensures spelled { result.items ≡ command_message id command.now }
    ensures request { IsRequest result.items id (kind_of command.now) (command_data command.now) }
    ensures fields { CommandFields command.now (kind_of command.now) (command_data command.now) }
    ensures range { IsCommand command.now }
{
    let mut body = Body::new();
    put_command(&mut body, id, command);
    body
}

/// Puts what [`write_command`] gives in the place of what `body` holds.
pub fn put_command(body: &mut Body, id: u8, command: &Command)
    requires { id < INSTANCE_IDS }
    ensures spelled { body.new.items ≡ command_message id command.now }
    ensures request { IsRequest body.new.items id (kind_of command.now) (command_data command.now) }
    ensures fields { CommandFields command.now (kind_of command.now) (command_data command.now) }
    ensures range { IsCommand command.now }
{
    put_head(body, 0x80 | id, command.kind());
    push_command_data(body, command);
}

/// Adds the command's data to a request's header.
fn push_command_data(body: &mut Body, command: &Command)
    requires { array_vec_len body.old ≤ REQUEST_HEADER }
    ensures items { body.new.items ≡ body.old.items ++ command_data command.now }
    ensures range { IsCommand command.now }
{
    match command {
        Command::SetTid { tid } => body.push(*tid),
        Command::GetTid | Command::GetPldmTypes | Command::GetPdrRepositoryInfo => {}
        Command::GetPldmVersion {
            data_transfer_handle,
            transfer_operation_flag,
            pldm_type,
        } => push_get_pldm_version(
            body,
            *data_transfer_handle,
            *transfer_operation_flag,
            *pldm_type,
        ),
        Command::GetPldmCommands { pldm_type, version } => {
            push_get_pldm_commands(body, *pldm_type, version);
        }
        Command::GetSensorReading { sensor, rearm } => {
            push_get_sensor_reading(body, *sensor, *rearm);
        }
        Command::GetStateSensorReadings { sensor, rearm } => {
            push_get_state_sensor_readings(body, *sensor, *rearm);
        }
        Command::SetNumericEffecterValue { effecter, value } => {
            push_set_numeric_effecter_value(body, *effecter, *value);
        }
        Command::GetNumericEffecterValue { effecter }
        | Command::GetStateEffecterStates { effecter } => push_u16(body, *effecter),
        Command::SetStateEffecterStates { effecter, fields } => {
            push_set_state_effecter_states(body, *effecter, fields);
        }
        Command::GetPdr {
            record_handle,
            data_transfer_handle,
            transfer_operation_flag,
            request_count,
            record_change_number,
        } => push_get_pdr(
            body,
            *record_handle,
            *data_transfer_handle,
            *transfer_operation_flag,
            *request_count,
            *record_change_number,
        ),
    }
}
