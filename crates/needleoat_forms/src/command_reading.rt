//! A request read into the struct of its fields for C, or the numbers that say why there is no command.

ghost use Rattle.pldm_wire.specs.Requests.{request_of};
ghost use Rattle.needleoat_forms.specs.Commands.{IsCommandRead};

use crate::CommandFields;
use pldm_wire::{read_command, read_request};

/// The outcome of reading a command. Where both numbers are 0, there is one.
#[repr(C)]
#[derive(Drop)]
pub struct CommandReading {
    /// 0, or the number of the reason to drop the message, 12 to 17.
    pub reason: u8,
    /// 0, or the completion code that refuses the request: 0x20, 0x05, 0x03 or 0x02.
    pub code: u8,
}

// As in `include/needleoat.h`.
const _: () = prove!(size_of::<CommandReading>() == 2);

/// Reads a message as a request and its command into `fields` (DSP0240, DSP0248). Where the message
/// is no request or its command is refused, `fields` is left as it was.
pub fn command_read(message: &[u8], fields: &mut CommandFields) -> CommandReading
    ensures { IsCommandRead (request_of message.now) result fields.old fields.new }
{
    let request = match read_request(message) {
        Ok(request) => request,
        Err(reason) => {
            return CommandReading {
                reason: reason.number(),
                code: 0,
            };
        }
    };
    match read_command(&request) {
        Ok(command) => {
            fields.set(request.id(), &command);
            CommandReading { reason: 0, code: 0 }
        }
        Err(code) => CommandReading {
            reason: 0,
            code: code.get(),
        },
    }
}
