//! The message of a control command (DSP0236, "MCTP control message format").

ghost use Rattle.std.specs.Prelude.{◌≡◌, ◌<◌};
ghost use Rattle.mctp_control.specs.Commands.{command_data};
ghost use Rattle.mctp_control.specs.Written.{command_message};
ghost use Rattle.mctp_control.specs.declared.assigned.TheConstants.{INSTANCE_IDS};

use crate::{CONTROL, Command, RQ};
use mctp_packet::Body;

/// The message of a command with this instance ID, 0 to 31 (DSP0236, "MCTP control message format"). Reserved bits
/// are 0.
pub fn write_command(id: u8, command: &Command) -> Body
    requires { id < INSTANCE_IDS }
    ensures { result.items ≡ command_message id command.now }
{
    let mut message = Body::new();
    message.push(CONTROL);
    message.push(RQ + id);
    message.push(command.number());
    match command {
        Command::SetEndpointId { operation, eid } => {
            message.push(operation.code());
            message.push(*eid);
        }
        Command::GetVersionSupport { message_type } => message.push(*message_type),
        Command::GetEndpointId | Command::GetEndpointUuid | Command::GetMessageTypeSupport => {}
    }
    message
}
