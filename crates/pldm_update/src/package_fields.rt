//! Fields of a package's header, each read from the front of the bytes that are left.

ghost use Rattle.std.specs.Prelude.{◌≡◌, length, IfOk};
ghost use Rattle.pldm_update.specs.PackageFields.{Gives, byte_at, list_at, number_at};

use crate::PackageFault;
use byteorder::{ByteOrder, LittleEndian};

/// A byte.
#[tactic(auto, unfolding(crate::specs::PackageFields::byte_at))]
pub(crate) fn byte_in(bytes: &[u8]) -> Result<(u8, &[u8]), PackageFault>
    ensures { Gives (λ x. (x.0, x.1.now)) result (byte_at bytes.now) }
{
    match bytes {
        [] => Err(PackageFault::Length),
        [byte, rest @ ..] => Ok((*byte, rest)),
    }
}

/// A number of two bytes.
#[tactic(auto, unfolding(crate::specs::PackageFields::number_at, crate::specs::PackageFields::refused))]
pub(crate) fn u16_in(bytes: &[u8]) -> Result<(u16, &[u8]), PackageFault>
    ensures { Gives (λ x. (x.0, x.1.now)) result (number_at 2 bytes.now) }
{
    if bytes.len() < 2 {
        return Err(PackageFault::Length);
    }
    let (_, rest) = bytes.split_at(2);
    Ok((LittleEndian::read_u16(bytes), rest))
}

/// A number of four bytes.
#[tactic(auto, unfolding(crate::specs::PackageFields::number_at, crate::specs::PackageFields::refused))]
pub(crate) fn u32_in(bytes: &[u8]) -> Result<(u32, &[u8]), PackageFault>
    ensures { Gives (λ x. (x.0, x.1.now)) result (number_at 4 bytes.now) }
{
    if bytes.len() < 4 {
        return Err(PackageFault::Length);
    }
    let (_, rest) = bytes.split_at(4);
    Ok((LittleEndian::read_u32(bytes), rest))
}

/// The first `count` bytes.
#[tactic(auto, unfolding(crate::specs::PackageFields::list_at, crate::specs::PackageFields::refused))]
pub(crate) fn slice_in(count: usize, bytes: &[u8]) -> Result<(&[u8], &[u8]), PackageFault>
    ensures { Gives (λ x. (x.0.now, x.1.now)) result (list_at count bytes.now) }
{
    if bytes.len() < count {
        return Err(PackageFault::Length);
    }
    Ok(bytes.split_at(count))
}
