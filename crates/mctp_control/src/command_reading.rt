//! The control command in a request, or the completion code by which it is refused.

ghost use Rattle.std.specs.Prelude.{◌≡◌, Ok, IfOk};
ghost use Rattle.mctp_control.specs.CommandReading.{command_of, of_length};
ghost use Rattle.mctp_control.specs.Commands.{CommandFields};
ghost use Rattle.mctp_control.specs.declared.command.Command.{Command as CommandValue};

use crate::{
    Command, CompletionCode, EidOperation, GET_ENDPOINT_ID, GET_ENDPOINT_UUID,
    GET_MESSAGE_TYPE_SUPPORT, GET_VERSION_SUPPORT, RequestRef, SET_ENDPOINT_ID,
};

/// The command that this request carries, or the completion code by which it is refused: ERROR_UNSUPPORTED_CMD for a
/// command that a simple endpoint doesn't have, then ERROR_INVALID_LENGTH for another length of data than the command's
/// (DSP0236, "MCTP control message completion codes"). Reserved bits may be any.
pub fn read_command(request: &RequestRef<'_>) -> Result<Command, CompletionCode>
    ensures exact { result ≡ command_of request.now.command request.now.rest }
    ensures found { IfOk result (λ c. CommandFields c request.now.command request.now.rest) }
    ensures only { (c : CommandValue) → CommandFields c request.now.command request.now.rest → result ≡ Ok c }
{
    command_at(request.command(), request.data())
}

/// As `read_command`, of the fields of a request.
fn command_at(number: u8, bytes: &[u8]) -> Result<Command, CompletionCode>
    ensures exact { result ≡ command_of number bytes.now }
    ensures found { IfOk result (λ c. CommandFields c number bytes.now) }
    ensures only { (c : CommandValue) → CommandFields c number bytes.now → result ≡ Ok c }
{
    command_in(number, bytes)
}

/// As `command_at`, in the order of the definition.
#[tactic(auto, unfolding(crate::specs::CommandReading::command_of))]
fn command_in(number: u8, bytes: &[u8]) -> Result<Command, CompletionCode>
    ensures { result ≡ command_of number bytes.now }
{
    match number {
        SET_ENDPOINT_ID => match bytes {
            [operation, eid] => Ok(Command::SetEndpointId {
                operation: EidOperation::of(*operation),
                eid: *eid,
            }),
            _ => Err(CompletionCode::ERROR_INVALID_LENGTH),
        },
        GET_ENDPOINT_ID => bare(Command::GetEndpointId, bytes),
        GET_ENDPOINT_UUID => bare(Command::GetEndpointUuid, bytes),
        GET_VERSION_SUPPORT => match bytes {
            [message_type] => Ok(Command::GetVersionSupport {
                message_type: *message_type,
            }),
            _ => Err(CompletionCode::ERROR_INVALID_LENGTH),
        },
        GET_MESSAGE_TYPE_SUPPORT => bare(Command::GetMessageTypeSupport, bytes),
        _ => Err(CompletionCode::ERROR_UNSUPPORTED_CMD),
    }
}

/// A command with no data.
fn bare(command: Command, bytes: &[u8]) -> Result<Command, CompletionCode>
    ensures { result ≡ of_length 0 command bytes.now }
{
    if bytes.is_empty() {
        Ok(command)
    } else {
        Err(CompletionCode::ERROR_INVALID_LENGTH)
    }
}
