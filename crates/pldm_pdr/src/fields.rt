//! Fields of a record, each read from the front of the bytes that are left.

ghost use Rattle.std.specs.Prelude.{◌≡◌, length, IfOk};
ghost use Rattle.byteorder.specs.Endian.{little_number};
ghost use Rattle.pldm_wire.specs.Numbers.{value_of};
ghost use Rattle.pldm_wire.specs.Sizes.{width};
ghost use Rattle.pldm_pdr.specs.RangeFormats.{format_at};
ghost use Rattle.pldm_pdr.specs.Fields.{Gives, byte_at, constant_at, flag_at, list_at, number_at, signed_byte_at, size_at, sized_at};

use crate::{RangeFormat, RecordFault};
use byteorder::{ByteOrder, LittleEndian};
use pldm_wire::Size;

/// A byte.
#[tactic(auto, unfolding(crate::specs::Fields::byte_at))]
pub(crate) fn byte_in(bytes: &[u8]) -> Result<(u8, &[u8]), RecordFault>
    ensures { Gives (λ x. (x.0, x.1.now)) result (byte_at bytes.now) }
{
    match bytes {
        [] => Err(RecordFault::Short),
        [byte, rest @ ..] => Ok((*byte, rest)),
    }
}

/// A byte in two's complement.
#[tactic(auto, unfolding(crate::specs::Fields::signed_byte_at))]
pub(crate) fn signed_byte_in(bytes: &[u8]) -> Result<(i8, &[u8]), RecordFault>
    ensures { Gives (λ x. (x.0, x.1.now)) result (signed_byte_at bytes.now) }
{
    match bytes {
        [] => Err(RecordFault::Short),
        [byte, rest @ ..] => Ok((byte.cast_signed(), rest)),
    }
}

/// A byte that says no or yes.
#[tactic(auto, unfolding(crate::specs::Fields::flag_at))]
pub(crate) fn flag_in(bytes: &[u8]) -> Result<(bool, &[u8]), RecordFault>
    ensures { Gives (λ x. (x.0, x.1.now)) result (flag_at bytes.now) }
{
    match bytes {
        [] => Err(RecordFault::Short),
        [0, rest @ ..] => Ok((false, rest)),
        [1, rest @ ..] => Ok((true, rest)),
        [_, ..] => Err(RecordFault::Flag),
    }
}

/// A number of two bytes.
#[tactic(auto, unfolding(crate::specs::Fields::number_at))]
pub(crate) fn u16_in(bytes: &[u8]) -> Result<(u16, &[u8]), RecordFault>
    ensures { Gives (λ x. (x.0, x.1.now)) result (number_at 2 bytes.now) }
{
    if bytes.len() < 2 {
        return Err(RecordFault::Short);
    }
    let (number, rest) = bytes.split_at(2);
    Ok((LittleEndian::read_u16(number), rest))
}

/// A number of four bytes.
#[tactic(auto, unfolding(crate::specs::Fields::number_at))]
pub(crate) fn u32_in(bytes: &[u8]) -> Result<(u32, &[u8]), RecordFault>
    ensures { Gives (λ x. (x.0, x.1.now)) result (number_at 4 bytes.now) }
{
    if bytes.len() < 4 {
        return Err(RecordFault::Short);
    }
    let (_, rest) = bytes.split_at(4);
    Ok((LittleEndian::read_u32(bytes), rest))
}

/// The byte of a data size.
#[tactic(auto, unfolding(crate::specs::Fields::size_at))]
pub(crate) fn size_in(bytes: &[u8]) -> Result<(Size, &[u8]), RecordFault>
    ensures { Gives (λ x. (x.0, x.1.now)) result (size_at bytes.now) }
{
    match bytes {
        [] => Err(RecordFault::Short),
        [code, rest @ ..] => match Size::from_code(*code) {
            Some(size) => Ok((size, rest)),
            None => Err(RecordFault::Size),
        },
    }
}

/// The byte of a range field format.
#[tactic(auto, unfolding(crate::specs::RangeFormats::format_at))]
pub(crate) fn format_in(bytes: &[u8]) -> Result<(RangeFormat, &[u8]), RecordFault>
    ensures { Gives (λ x. (x.0, x.1.now)) result (format_at bytes.now) }
{
    match bytes {
        [] => Err(RecordFault::Short),
        [6, rest @ ..] => Ok((RangeFormat::Real32, rest)),
        [code, rest @ ..] => match Size::from_code(*code) {
            Some(size) => Ok((RangeFormat::Number(size), rest)),
            None => Err(RecordFault::Format),
        },
    }
}

/// What follows a byte with this value; this fault where the byte has another.
#[tactic(auto, unfolding(crate::specs::Fields::constant_at))]
pub(crate) fn constant_in(fault: RecordFault, value: u8, bytes: &[u8]) -> Result<&[u8], RecordFault>
    ensures { Gives (λ rest. rest.now) result (constant_at fault value bytes.now) }
{
    match bytes {
        [] => Err(RecordFault::Short),
        [byte, rest @ ..] if *byte == value => Ok(rest),
        [_, ..] => Err(fault),
    }
}

/// A number in the bytes of this data size.
#[tactic(auto, unfolding(crate::specs::Fields::sized_at))]
pub(crate) fn sized_in(size: Size, bytes: &[u8]) -> Result<(i64, &[u8]), RecordFault>
    ensures { Gives (λ x. (x.0, x.1.now)) result (sized_at size bytes.now) }
{
    let width = width(size);
    if bytes.len() < width {
        return Err(RecordFault::Short);
    }
    let (number, rest) = bytes.split_at(width);
    Ok((value_in(size, number), rest))
}

/// The first `count` bytes.
#[tactic(auto, unfolding(crate::specs::Fields::list_at, crate::specs::Fields::refused))]
pub(crate) fn slice_in(count: usize, bytes: &[u8]) -> Result<(&[u8], &[u8]), RecordFault>
    ensures read { Gives (λ x. (x.0.now, x.1.now)) result (list_at count bytes.now) }
    ensures len { IfOk result (λ x. length x.0.now ≡ count) }
{
    if bytes.len() < count {
        return Err(RecordFault::Short);
    }
    Ok(bytes.split_at(count))
}

/// The number of this size that these bytes are.
fn value_in(size: Size, bytes: &[u8]) -> i64
    requires { length bytes.now ≡ width size }
    ensures { result ≡ value_of size (little_number (width size) bytes.now) }
{
    let width = width(size);
    match size {
        Size::Sint8 | Size::Sint16 | Size::Sint32 => LittleEndian::read_int(bytes, width),
        Size::Uint8 | Size::Uint16 | Size::Uint32 => LittleEndian::read_uint(bytes, width) as i64,
    }
}

/// The bytes of a number of this size.
pub(crate) fn width(size: Size) -> usize
    ensures { result ≡ width size }
{
    match size {
        Size::Uint8 | Size::Sint8 => 1,
        Size::Uint16 | Size::Sint16 => 2,
        Size::Uint32 | Size::Sint32 => 4,
    }
}
