//! Bytes copied to the front of a room that C gives.

ghost use Rattle.std.specs.Prelude.{◌≤◌, length};
ghost use Rattle.mctp_packet.specs.declared.TheConstants.{MAX_MESSAGE_BYTES};
ghost use Rattle.needleoat_forms.specs.Written.{HasFront};

/// Writes bytes to the front of a room that has place for them, and returns their count. No room that crosses to C has
/// more bytes than a message.
pub(crate) fn put_front(room: &mut [u8], bytes: &[u8]) -> u32
    requires fits { length bytes.now ≤ length room.old }
    requires room { length room.old ≤ MAX_MESSAGE_BYTES }
    ensures { HasFront bytes.now result room.old room.new }
{
    room[..bytes.len()].copy_from_slice(bytes);
    bytes.len() as u32
}
