//! The data sizes of numeric sensors and effecters (DSP0248, "sensorDataSize" and "effecterDataSize").

ghost use Rattle.std.specs.Prelude.{◌≡◌};
ghost use Rattle.pldm_wire.specs.Sizes.{is_signed, size_code, size_of, width};
ghost use Rattle.pldm_wire.specs.SizeNames.{size_named, size_name};

/// The data size of a numeric sensor or effecter (DSP0248, "sensorDataSize" and
/// "effecterDataSize").
#[derive(Clone, Copy, Debug, PartialEq, Eq)]
pub enum Size {
    /// 0: one byte, 0 to 255.
    Uint8,
    /// 1: one byte, -128 to 127.
    Sint8,
    /// 2: two bytes, 0 to 65,535.
    Uint16,
    /// 3: two bytes, -32,768 to 32,767.
    Sint16,
    /// 4: four bytes, 0 to 4,294,967,295.
    Uint32,
    /// 5: four bytes, -2,147,483,648 to 2,147,483,647.
    Sint32,
}

impl Size {
    /// The size of this name: `uint8`, `sint8`, `uint16`, `sint16`, `uint32` or `sint32`.
    pub fn named(name: &str) -> Option<Size>
        ensures { result ≡ size_named name.now }
    {
        if name == "uint8" {
            Some(Size::Uint8)
        } else if name == "sint8" {
            Some(Size::Sint8)
        } else if name == "uint16" {
            Some(Size::Uint16)
        } else if name == "sint16" {
            Some(Size::Sint16)
        } else if name == "uint32" {
            Some(Size::Uint32)
        } else if name == "sint32" {
            Some(Size::Sint32)
        } else {
            None
        }
    }

    /// Its name.
    pub fn name(self) -> &'static str
        ensures { result.now ≡ size_name self }
    {
        match self {
            Size::Uint8 => "uint8",
            Size::Sint8 => "sint8",
            Size::Uint16 => "uint16",
            Size::Sint16 => "sint16",
            Size::Uint32 => "uint32",
            Size::Sint32 => "sint32",
        }
    }

    /// The size of this number on the wire, where there is one (DSP0248, "sensorDataSize" and "effecterDataSize").
    pub fn from_code(code: u8) -> Option<Size>
        ensures { result ≡ size_of code }
    {
        match code {
            0 => Some(Size::Uint8),
            1 => Some(Size::Sint8),
            2 => Some(Size::Uint16),
            3 => Some(Size::Sint16),
            4 => Some(Size::Uint32),
            5 => Some(Size::Sint32),
            _ => None,
        }
    }

    /// Its number on the wire, 0 to 5.
    pub fn code(self) -> u8
        ensures { result ≡ size_code self }
    {
        match self {
            Size::Uint8 => 0,
            Size::Sint8 => 1,
            Size::Uint16 => 2,
            Size::Sint16 => 3,
            Size::Uint32 => 4,
            Size::Sint32 => 5,
        }
    }

    /// Its bytes, 1, 2 or 4.
    pub(crate) fn width(self) -> usize
        ensures { result ≡ width self }
    {
        match self {
            Size::Uint8 | Size::Sint8 => 1,
            Size::Uint16 | Size::Sint16 => 2,
            Size::Uint32 | Size::Sint32 => 4,
        }
    }

    /// Whether its numbers may be negative.
    pub(crate) fn is_signed(self) -> bool
        ensures { result ≡ is_signed self }
    {
        match self {
            Size::Uint8 | Size::Uint16 | Size::Uint32 => false,
            Size::Sint8 | Size::Sint16 | Size::Sint32 => true,
        }
    }
}
