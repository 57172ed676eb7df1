//! The message of a request with any data (DSP0240, "PLDM message fields").

ghost use Rattle.pldm_wire.specs.declared.assigned.TheConstants.{INSTANCE_IDS};
ghost use Rattle.std.specs.Prelude.{◌≡◌, ◌<◌, ◌≤◌, length};
ghost use Rattle.pldm_wire.specs.Messages.{IsRequest, request_message};

use crate::header::put_head;
use crate::pushes::push_bytes;
use crate::{Kind, MAX_REQUEST_DATA};
use mctp_packet::Body;

/// Puts the request of this instance ID, 0 to 31, for a command of this kind, with this data, in the place of what
/// `body` holds: the header with its reserved bit 0, then the data (DSP0240, "PLDM message fields").
pub fn put_request(body: &mut Body, id: u8, kind: Kind, data: &[u8])
    requires id { id < INSTANCE_IDS }
    requires few { length data.now ≤ MAX_REQUEST_DATA }
    ensures spelled { body.new.items ≡ request_message 0 id kind data.now }
    ensures request { IsRequest body.new.items id kind data.now }
{
    put_head(body, 0x80 | id, kind);
    push_bytes(body, data);
}
