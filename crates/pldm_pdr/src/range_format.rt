//! The format of the range fields of a numeric sensor or effecter (DSP0248, "rangeFieldFormat").

ghost use Rattle.std.specs.Prelude.{◌≡◌};
ghost use Rattle.pldm_pdr.specs.RangeFormats.{bits_size, format_code};

use pldm_wire::Size;

/// The format of the range fields of a numeric sensor or effecter (DSP0248, "rangeFieldFormat").
#[derive(Clone, Copy, Debug, PartialEq, Eq)]
pub enum RangeFormat {
    /// 0 to 5: numbers of a data size.
    Number(Size),
    /// 6: real32, kept as bits.
    Real32,
}

impl RangeFormat {
    /// The data size in which a range field is kept: its own, or that of a real32's bits.
    pub fn bits_size(self) -> Size
        ensures { result ≡ bits_size self }
    {
        match self {
            RangeFormat::Number(size) => size,
            RangeFormat::Real32 => Size::Uint32,
        }
    }

    /// Its number on the wire, 0 to 6.
    pub fn code(self) -> u8
        ensures { result ≡ format_code self }
    {
        match self {
            RangeFormat::Number(size) => size.code(),
            RangeFormat::Real32 => 6,
        }
    }
}
