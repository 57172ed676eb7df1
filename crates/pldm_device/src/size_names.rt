//! Data sizes in a description, and numbers that fit them.

ghost use Rattle.std.specs.Prelude.{◌≡◌};
ghost use Rattle.pldm_device.specs.SizeNames.{size_in, size_of_name, sized_in};
ghost use Rattle.pldm_wire.specs.Sizes.{greatest, least};
ghost use Rattle.toml.specs.View.{view};

use crate::allowed::Allowed;
use crate::description_fault::FileFault;
use crate::keys::text_in;
use crate::path::Path;
use crate::refusal::Refusal;
use pldm_wire::{Number, Size};
use toml::Value;

/// The size that a text names; `OutOfRange` where it names none.
pub(crate) fn size_in(value: &Value, at: Path<'static>) -> Result<Size, Refusal>
    ensures { result ≡ size_in (view value.now) }
{
    size_of_name(text_in(value, at, Allowed::SizeNames)?, at)
}

/// The size of this name.
fn size_of_name(name: &str, at: Path<'static>) -> Result<Size, Refusal>
    ensures { result ≡ size_of_name name.now }
{
    match Size::named(name) {
        Some(size) => Ok(size),
        None => Err(Refusal::new(FileFault::OutOfRange, at, Allowed::SizeNames)),
    }
}

/// The least and the greatest number of the size.
pub(crate) fn limits(size: Size) -> (i64, i64)
    ensures least { result.0 ≡ least size }
    ensures greatest { result.1 ≡ greatest size }
{
    match size {
        Size::Uint8 => (0, 255),
        Size::Sint8 => (-128, 127),
        Size::Uint16 => (0, 65_535),
        Size::Sint16 => (-32_768, 32_767),
        Size::Uint32 => (0, 4_294_967_295),
        Size::Sint32 => (-2_147_483_648, 2_147_483_647),
    }
}

/// The integers of the size.
pub(crate) fn integers_of(size: Size) -> Allowed {
    let (low, high) = limits(size);
    Allowed::Integer { low, high }
}

/// An integer that fits the size; `OutOfRange` where it doesn't.
pub(crate) fn sized_in(
    size: Size,
    value: &Value,
    at: Path<'static>,
    allowed: Allowed,
) -> Result<Number, Refusal>
    ensures { result ≡ sized_in size (view value.now) }
{
    let Some(number) = value.as_integer() else {
        return Err(Refusal::new(FileFault::WrongKind, at, allowed));
    };
    match Number::new(size, number) {
        Some(number) => Ok(number),
        None => Err(Refusal::new(FileFault::OutOfRange, at, allowed)),
    }
}
