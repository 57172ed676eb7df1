//! Numbers and bytes that are added to a message's body.

ghost use Rattle.std.specs.Prelude.{◌≡◌, ◌+◌, ◌≤◌, ◌++◌, length};
ghost use Rattle.arrayvec.specs.ArrayVec.{array_vec_len};
ghost use Rattle.byteorder.specs.Endian.{little_bytes};
ghost use Rattle.pldm_wire.specs.Sizes.{width};
ghost use Rattle.pldm_wire.specs.Numbers.{IsNumber, number_bytes};

use crate::Number;
use byteorder::{ByteOrder, LittleEndian};
use mctp_packet::{Body, MAX_MESSAGE_BYTES};

/// Adds a number of two bytes.
pub(crate) fn push_u16(body: &mut Body, number: u16)
    requires { array_vec_len body.old + 2 ≤ MAX_MESSAGE_BYTES }
    ensures items { body.new.items ≡ body.old.items ++ little_bytes 2 number }
    ensures len { array_vec_len body.new ≡ array_vec_len body.old + 2 }
{
    let mut bytes = [0; 2];
    LittleEndian::write_u16(&mut bytes, number);
    push_bytes(body, &bytes);
}

/// Adds a number of four bytes.
pub(crate) fn push_u32(body: &mut Body, number: u32)
    requires { array_vec_len body.old + 4 ≤ MAX_MESSAGE_BYTES }
    ensures items { body.new.items ≡ body.old.items ++ little_bytes 4 number }
    ensures len { array_vec_len body.new ≡ array_vec_len body.old + 4 }
{
    let mut bytes = [0; 4];
    LittleEndian::write_u32(&mut bytes, number);
    push_bytes(body, &bytes);
}

/// Adds a number in the bytes of its size.
pub(crate) fn push_number(body: &mut Body, number: Number)
    requires { array_vec_len body.old + width number.size ≤ MAX_MESSAGE_BYTES }
    ensures items { body.new.items ≡ body.old.items ++ number_bytes number }
    ensures len { array_vec_len body.new ≡ array_vec_len body.old + width number.size }
    ensures range { IsNumber number }
{
    let mut bytes = [0; 4];
    let width = number.size().width();
    LittleEndian::write_int(&mut bytes, number.value(), width);
    push_bytes(body, &bytes[..width]);
}

/// Adds these bytes.
pub(crate) fn push_bytes(body: &mut Body, bytes: &[u8])
    requires { array_vec_len body.old + length bytes.now ≤ MAX_MESSAGE_BYTES }
    ensures items { body.new.items ≡ body.old.items ++ bytes.now }
    ensures len { array_vec_len body.new ≡ array_vec_len body.old + length bytes.now }
{
    let _ = body.try_extend_from_slice(bytes); // they fit
}

/// Adds all bytes of an array.
pub(crate) fn push_array<const N: usize>(body: &mut Body, bytes: &[u8; N])
    requires { array_vec_len body.old + N ≤ MAX_MESSAGE_BYTES }
    ensures items { body.new.items ≡ body.old.items ++ bytes.now }
    ensures len { array_vec_len body.new ≡ array_vec_len body.old + N }
    ensures range { length bytes.now ≡ N }
{
    push_bytes(body, bytes);
}
