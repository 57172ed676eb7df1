//! The parts of a decoded line: each adds a space, and then a field by name.

ghost use Rattle.std.specs.Prelude.{◌≡◌, ◌≤◌, ◌*◌, ◌++◌, OnOk, length, option_map};
ghost use Rattle.mctpctl_decode.specs.FieldTexts.{bit_number, bits_from, byte_bits, code_word, field, hex_field, named, signed_field, word};

use mctp_packet::Memory;
use mctpctl_texts::{TextWriter, write_number, write_signed, write_text};
use pldm_wire::COMMANDS_BYTES;

/// The most bytes of which the bits are named: as many as the commands of a PLDM type take.
const MAX_BIT_BYTES: usize = COMMANDS_BYTES;

/// Adds a word.
pub fn push_word(out: &mut Vec<u8>, text: &str) -> Result<(), Memory>
    ensures { OnOk result (out.new.items ≡ out.old.items ++ word text.now) }
{
    write_text(out, " ")?;
    write_text(out, text)
}

/// Adds a number in decimal after its name.
pub fn push_field(out: &mut Vec<u8>, name: &str, number: u64) -> Result<(), Memory>
    ensures { OnOk result (out.new.items ≡ out.old.items ++ field name.now number) }
{
    push_word(out, name)?;
    write_text(out, " ")?;
    write_number(out, number)
}

/// Adds a number with a sign after its name.
pub fn push_signed_field(out: &mut Vec<u8>, name: &str, number: i64) -> Result<(), Memory>
    ensures { OnOk result (out.new.items ≡ out.old.items ++ signed_field name.now number) }
{
    push_word(out, name)?;
    write_text(out, " ")?;
    write_signed(out, number)
}

/// Adds bytes in lower-case hex after their name.
pub fn push_hex_field(out: &mut Vec<u8>, name: &str, bytes: &[u8]) -> Result<(), Memory>
    ensures { OnOk result (out.new.items ≡ out.old.items ++ hex_field name.now bytes.now) }
{
    push_word(out, name)?;
    write_text(out, " ")?;
    out.write_hex(bytes)
}

/// Adds a state by its name, or by its number where it has none.
pub fn push_named(out: &mut Vec<u8>, name: Option<&str>, number: u8) -> Result<(), Memory>
    ensures { OnOk result (out.new.items ≡ out.old.items ++ named (option_map (λ text. text.now) name.entry) number) }
{
    match name {
        Some(text) => push_word(out, text),
        None => {
            write_text(out, " ")?;
            write_number(out, number.into())
        }
    }
}

/// Adds a completion code by its name, or in hex where it has none.
pub fn push_code(out: &mut Vec<u8>, name: Option<&str>, code: u8) -> Result<(), Memory>
    ensures { OnOk result (out.new.items ≡ out.old.items ++ code_word (option_map (λ text. text.now) name.entry) code) }
{
    match name {
        Some(text) => push_word(out, text),
        None => {
            write_text(out, " ")?;
            out.write_hex(&[code])
        }
    }
}

/// Adds the numbers of the bits that are set, the lowest bit of the first byte being number 0, and eight
/// bits to a byte.
pub fn push_bits(out: &mut Vec<u8>, bytes: &[u8]) -> Result<(), Memory>
    requires { length bytes.now ≤ MAX_BIT_BYTES }
    ensures { OnOk result (out.new.items ≡ out.old.items ++ bits_from 0 bytes.now) }
{
    let mut first = 0;
    let mut rest = bytes;
    while let [byte, more @ ..] = rest {
        push_byte_bits(out, first, *byte)?;
        first += 8;
        rest = more;
    }
    Ok(())
}

/// Adds the numbers of the bits of a byte that are set, the lowest bit being number `first`.
fn push_byte_bits(out: &mut Vec<u8>, first: u64, byte: u8) -> Result<(), Memory>
    requires { first ≤ 8 * MAX_BIT_BYTES }
    ensures { OnOk result (out.new.items ≡ out.old.items ++ byte_bits first byte) }
{
    push_bit(out, first, byte & 1 == 1)?;
    push_bit(out, first + 1, byte >> 1 & 1 == 1)?;
    push_bit(out, first + 2, byte >> 2 & 1 == 1)?;
    push_bit(out, first + 3, byte >> 3 & 1 == 1)?;
    push_bit(out, first + 4, byte >> 4 & 1 == 1)?;
    push_bit(out, first + 5, byte >> 5 & 1 == 1)?;
    push_bit(out, first + 6, byte >> 6 & 1 == 1)?;
    push_bit(out, first + 7, byte >> 7 & 1 == 1)
}

/// Adds the number of a bit, where it is set.
fn push_bit(out: &mut Vec<u8>, number: u64, set: bool) -> Result<(), Memory>
    ensures { OnOk result (out.new.items ≡ out.old.items ++ bit_number number set) }
{
    if set {
        write_text(out, " ")?;
        write_number(out, number)?;
    }
    Ok(())
}
