//! The header of a message as a struct for C, read from bytes (DSP0240, "PLDM message fields").

ghost use Rattle.std.specs.Prelude.{◌≡◌};
ghost use Rattle.pldm_wire.specs.Requests.{request_of};
ghost use Rattle.pldm_wire.specs.Responses.{response_of};
ghost use Rattle.needleoat_forms.specs.Messages.{ReportsRequest, ReportsResponse, reported_length};

use pldm_wire::{read_request, read_response};

/// The most bytes of data that are reported.
const MOST_REPORTED: u32 = 0xffff_ffff;

/// The header of a request or a response, or why the bytes are none (DSP0240, "PLDM message
/// fields"). A request's data begins at byte 4 and a response's at byte 5.
#[repr(C)]
#[derive(Drop)]
pub struct MessageFields {
    /// 0, or the number of the reason to drop the message, 12 to 18. Where it is not 0, the other
    /// fields have no meaning.
    pub reason: u8,
    /// The instance ID, 0 to 31.
    pub instance_id: u8,
    /// The PLDM type, 0 to 63.
    pub pldm_type: u8,
    /// The command's number in that type.
    pub command: u8,
    /// A response's completion code. A request has none: 0.
    pub code: u8,
    /// The length of the data in bytes; of 2^32 bytes or more, 2^32 - 1.
    pub data_length: u32,
}

// As in `include/needleoat.h`.
const _: () = prove!(size_of::<MessageFields>() == 12);

impl MessageFields {
    /// The report of bytes that are no message.
    fn refused(reason: u8) -> MessageFields
        ensures { result.reason ≡ reason }
    {
        MessageFields {
            reason,
            instance_id: 0,
            pldm_type: 0,
            command: 0,
            code: 0,
            data_length: 0,
        }
    }
}

/// Reads a message as a request. The first check that fails names the reason (DSP0240, "PLDM message
/// fields").
pub fn request_read(message: &[u8]) -> MessageFields
    ensures { ReportsRequest (request_of message.now) result }
{
    match read_request(message) {
        Ok(request) => MessageFields {
            reason: 0,
            instance_id: request.id(),
            pldm_type: request.kind().pldm_type,
            command: request.kind().command,
            code: 0,
            data_length: reported_length(request.data()),
        },
        Err(reason) => MessageFields::refused(reason.number()),
    }
}

/// Reads a message as a response. The first check that fails names the reason (DSP0240, "PLDM
/// message fields").
pub fn response_read(message: &[u8]) -> MessageFields
    ensures { ReportsResponse (response_of message.now) result }
{
    match read_response(message) {
        Ok(response) => MessageFields {
            reason: 0,
            instance_id: response.id(),
            pldm_type: response.kind().pldm_type,
            command: response.kind().command,
            code: response.code(),
            data_length: reported_length(response.data()),
        },
        Err(reason) => MessageFields::refused(reason.number()),
    }
}

/// The length of a message's data, as it is reported.
fn reported_length(bytes: &[u8]) -> u32
    ensures { result ≡ reported_length bytes.now }
{
    if bytes.len() > MOST_REPORTED as usize {
        return MOST_REPORTED;
    }
    bytes.len() as u32
}
