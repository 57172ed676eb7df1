//! A number of a numeric sensor or effecter, which fits its data size (DSP0248, "sensorDataSize").

ghost use Rattle.std.specs.Prelude.{◌≡◌, ◌+◌, ◌≤◌, ◌↔◌, IsSome, IfSome, is_some, length};
ghost use Rattle.byteorder.specs.Endian.{little_from};
ghost use Rattle.pldm_wire.specs.Sizes.{Fits, fits, greatest, least, width};
ghost use Rattle.pldm_wire.specs.Numbers.{number_at, sized, value_of};

use crate::Size;
use byteorder::{ByteOrder, LittleEndian};
use std::marker::Model;

/// A number of a numeric sensor or effecter with its data size, which it fits (DSP0248,
/// "sensorDataSize" and "effecterDataSize").
#[derive(Clone, Copy, Debug, PartialEq, Eq)]
pub struct Number {
    size: Size,
    value: i64,
}

impl Model for Number {
    ghost use Rattle.pldm_wire.specs.Sizes.{Fits};
    ghost use Rattle.pldm_wire.specs.Numbers.{SizedNumber};

    ghost Value = { SizedNumber };

    ghost view = { λ n. record { size = n.size; value = n.value } };

    ghost invariant = { λ n. Fits n.size n.value };

    ghost inverse = { λ n. record { size = n.size; value = n.value } };
}

impl Number {
    /// The number of this size and value, where the value fits the size.
    pub fn new(size: Size, value: i64) -> Option<Number>
        ensures some { IsSome result ↔ Fits size value }
        ensures test { is_some result ≡ fits size value }
        ensures number { IfSome result (λ number. number ≡ sized size value) }
    {
        let (least, greatest) = limits(size);
        if least <= value && value <= greatest {
            Some(Number { size, value })
        } else {
            None
        }
    }

    /// The number of this size that stands at this place of a message's data.
    pub(crate) fn read(size: Size, bytes: &[u8], place: usize) -> Number
        requires { place + width size ≤ length bytes.now }
        ensures { result ≡ number_at size place bytes.now }
    {
        let value = value_in(size, bytes, place);
        Number { size, value }
    }

    /// Its data size.
    pub fn size(self) -> Size
        ensures { result ≡ self.size }
    {
        self.size
    }

    /// Its value, which fits the size.
    pub fn value(self) -> i64
        ensures value { result ≡ self.value }
        ensures range { Fits self.size self.value }
    {
        self.value
    }
}

/// The least and the greatest number of the size.
fn limits(size: Size) -> (i64, i64)
    ensures least { result.0 ≡ least size }
    ensures greatest { result.1 ≡ greatest size }
{
    match size {
        Size::Uint8 => (0, 255),
        Size::Sint8 => (-128, 127),
        Size::Uint16 => (0, 65_535),
        Size::Sint16 => (-32_768, 32_767),
        Size::Uint32 => (0, 4_294_967_295),
        Size::Sint32 => (-2_147_483_648, 2_147_483_647),
    }
}

/// The value of the number of this size at this place.
#[tactic(auto, using(crate::proofs::Placed::little_from_drop))]
fn value_in(size: Size, bytes: &[u8], place: usize) -> i64
    requires { place + width size ≤ length bytes.now }
    ensures value { result ≡ value_of size (little_from place (width size) bytes.now) }
    ensures fits { Fits size result }
{
    let width = size.width();
    let (_, rest) = bytes.split_at(place);
    if size.is_signed() {
        return LittleEndian::read_int(rest, width);
    }
    LittleEndian::read_uint(rest, width) as i64
}
