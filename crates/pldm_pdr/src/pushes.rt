//! Fields of a record, each added to the bytes before it.

ghost use Rattle.std.specs.Prelude.{◌≡◌, ◌+◌, ◌≤◌, length};
ghost use Rattle.arrayvec.specs.ArrayVec.{array_vec_len};
ghost use Rattle.byteorder.specs.Endian.{little_bytes};
ghost use Rattle.pldm_wire.specs.Numbers.{IsU8, IsU16, IsU32};
ghost use Rattle.std.specs.Prelude.{FitsSigned};
ghost use Rattle.std.specs.Int.{w8};
ghost use Rattle.pldm_pdr.specs.NameRecords.{AreBytes};
ghost use Rattle.pldm_pdr.specs.Fields.{Adds, byte, flag, signed_byte, sized_bytes};

use crate::fields::width;
use crate::{MAX_RECORD_BYTES, RecordBytes};
use byteorder::{ByteOrder, LittleEndian};
use pldm_wire::Size;

/// Adds a byte.
pub(crate) fn push_byte(out: &mut RecordBytes, number: u8)
    requires { array_vec_len out.old + 1 ≤ MAX_RECORD_BYTES }
    ensures added { Adds out.old.items out.new.items (byte number) }
    ensures len { array_vec_len out.new ≡ array_vec_len out.old + 1 }
    ensures range { IsU8 number }
{
    out.push(number);
}

/// Adds a byte in two's complement.
pub(crate) fn push_signed_byte(out: &mut RecordBytes, number: i8)
    requires { array_vec_len out.old + 1 ≤ MAX_RECORD_BYTES }
    ensures added { Adds out.old.items out.new.items (signed_byte number) }
    ensures len { array_vec_len out.new ≡ array_vec_len out.old + 1 }
    ensures range { FitsSigned w8 number }
{
    out.push(number.cast_unsigned());
}

/// Adds a byte that says no or yes.
pub(crate) fn push_flag(out: &mut RecordBytes, is_set: bool)
    requires { array_vec_len out.old + 1 ≤ MAX_RECORD_BYTES }
    ensures added { Adds out.old.items out.new.items (flag is_set) }
    ensures len { array_vec_len out.new ≡ array_vec_len out.old + 1 }
{
    out.push(u8::from(is_set));
}

/// Adds a number of two bytes.
pub(crate) fn push_u16(out: &mut RecordBytes, number: u16)
    requires { array_vec_len out.old + 2 ≤ MAX_RECORD_BYTES }
    ensures added { Adds out.old.items out.new.items (little_bytes 2 number) }
    ensures len { array_vec_len out.new ≡ array_vec_len out.old + 2 }
    ensures range { IsU16 number }
{
    let mut bytes = [0; 2];
    LittleEndian::write_u16(&mut bytes, number);
    push_bytes(out, &bytes);
}

/// Adds a number of four bytes.
pub(crate) fn push_u32(out: &mut RecordBytes, number: u32)
    requires { array_vec_len out.old + 4 ≤ MAX_RECORD_BYTES }
    ensures added { Adds out.old.items out.new.items (little_bytes 4 number) }
    ensures len { array_vec_len out.new ≡ array_vec_len out.old + 4 }
    ensures range { IsU32 number }
{
    let mut bytes = [0; 4];
    LittleEndian::write_u32(&mut bytes, number);
    push_bytes(out, &bytes);
}

/// Adds a number in the bytes of its size, at most four.
pub(crate) fn push_sized(out: &mut RecordBytes, size: Size, value: &i64)
    requires { array_vec_len out.old + 4 ≤ MAX_RECORD_BYTES }
    ensures added { Adds out.old.items out.new.items (sized_bytes size value.now) }
    ensures len { array_vec_len out.new ≤ array_vec_len out.old + 4 }
{
    let mut bytes = [0; 4];
    let width = width(size);
    LittleEndian::write_int(&mut bytes, *value, width);
    push_bytes(out, &bytes[..width]);
}

/// Adds these bytes.
pub(crate) fn push_bytes(out: &mut RecordBytes, bytes: &[u8])
    requires { array_vec_len out.old + length bytes.now ≤ MAX_RECORD_BYTES }
    ensures added { Adds out.old.items out.new.items bytes.now }
    ensures len { array_vec_len out.new ≡ array_vec_len out.old + length bytes.now }
    ensures range { AreBytes bytes.now }
{
    let _ = out.try_extend_from_slice(bytes); // they fit
}
