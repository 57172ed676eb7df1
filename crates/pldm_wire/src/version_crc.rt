//! The CRC-32 checksum that follows version data (DSP0240, "GetPLDMVersion command").

ghost use Rattle.std.specs.Prelude.{◌≡◌, ◌≤◌};
ghost use Rattle.std.specs.List.{fold};
ghost use Rattle.pldm_wire.specs.Crc32.{IsCrc32, bit_divided, bits_of, crc32};

/// x^32, which no remainder has.
const HIGH: u64 = 0x1_0000_0000;

/// The polynomial by which is divided, bit k for x^k.
const DIVISOR: u64 = 0x1_04c1_1db7;

/// The checksum that follows version data (DSP0240, "GetPLDMVersion command"): CRC-32 as IEEE 802.3 has it, each byte
/// from its least significant bit on. Versions are few bytes, so each bit is a step of a long division.
#[tactic(auto, unfolding(crate::specs::Crc32::divided_bits))]
pub fn crc32(bytes: &[u8]) -> u32
    ensures value { result ≡ crc32 bytes.now }
    ensures remainder { IsCrc32 bytes.now result }
{
    let mut remainder = u32::MAX;
    for byte in bytes {
        remainder = byte_divided(remainder, *byte);
    }
    remainder.reverse_bits() ^ u32::MAX
}

/// The remainder after the bits of one more byte.
fn byte_divided(remainder: u32, byte: u8) -> u32
    ensures { result ≡ fold bit_divided remainder (bits_of byte) }
{
    let remainder = bit_divided(remainder, byte % 2);
    let remainder = bit_divided(remainder, byte / 2 % 2);
    let remainder = bit_divided(remainder, byte / 4 % 2);
    let remainder = bit_divided(remainder, byte / 8 % 2);
    let remainder = bit_divided(remainder, byte / 16 % 2);
    let remainder = bit_divided(remainder, byte / 32 % 2);
    let remainder = bit_divided(remainder, byte / 64 % 2);
    bit_divided(remainder, byte / 128 % 2)
}

/// The remainder after one more bit.
fn bit_divided(remainder: u32, bit: u8) -> u32
    requires { bit ≤ 1 }
    ensures { result ≡ bit_divided remainder bit }
{
    let number = (u64::from(remainder) * 2) ^ (u64::from(bit) * HIGH);
    if number < HIGH {
        number as u32
    } else {
        (number ^ DIVISOR) as u32
    }
}
