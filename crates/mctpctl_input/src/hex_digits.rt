//! What each byte is as a hex digit, in a table that the crate `hex` fills.

ghost use Rattle.std.specs.Prelude.{◌≡◌, MatchResult, length, true, false};
ghost use Rattle.hex.specs.Hex.{decode_sized, hex_digit_value};
ghost use Rattle.mctpctl_input.specs.HexDigits.{HoldsDigits, value_or_none};

use std::marker::Model;

/// How many bytes there are.
const BYTES: usize = 256;

/// The greatest value of two digits.
const MAX_BYTE: u16 = 255;

/// What stands at a byte that is no digit: two places of which one has it give more than two digits do.
const NO_DIGIT: u16 = 256;

/// What the crate `hex` reads of each byte as a digit. A text is read by looking its bytes up, where `hex`
/// compares each with three ranges.
#[derive(Drop)]
pub struct HexDigits {
    /// At the place of each byte its value as a digit, or `NO_DIGIT`.
    values: [u16; BYTES],
}

impl Model for HexDigits {
    ghost use Rattle.std.specs.Prelude.{List, ℕ};
    ghost use Rattle.mctpctl_input.specs.HexDigits.{HoldsDigits};

    ghost Value = { List ℕ };

    ghost view = { λ d. d.values };

    ghost invariant = { λ d. HoldsDigits d.values };
}

impl HexDigits {
    /// Asks `hex` for each byte.
    pub fn new() -> HexDigits
        ensures { HoldsDigits result }
    {
        let mut values = [NO_DIGIT; BYTES];
        for byte in 0..BYTES {
            values[byte] = value_of(byte as u8);
        }
        HexDigits { values }
    }

    /// Reads hex digits of either case into `bytes`, as `hex::decode_to_slice` does, and says whether they
    /// are that and twice as many as the bytes. If they aren't, what `bytes` then holds is not specified.
    pub fn read(&self, digits: &[u8], bytes: &mut [u8]) -> bool
        ensures { MatchResult (decode_sized digits.now (length bytes.old))
            (λ decoded. (result ≡ true) × (bytes.new ≡ decoded))
            (λ fault. result ≡ false) }
    {
        if digits.len() % 2 != 0 || digits.len() / 2 != bytes.len() {
            return false;
        }
        let values = &self.values;
        let mut greatest = 0;
        for place in 0..bytes.len() {
            let high = values[usize::from(digits[2 * place])];
            let low = values[usize::from(digits[2 * place + 1])];
            let value = high * 16 + low;
            greatest = greatest.max(value); // asked at the end: no jump depends on a digit
            bytes[place] = (value % 256) as u8;
        }
        greatest <= MAX_BYTE
    }
}

/// What `hex` reads of a byte as a digit: its value, or `NO_DIGIT`.
fn value_of(byte: u8) -> u16
    ensures { result ≡ value_or_none (hex_digit_value byte) }
{
    let mut value = [0];
    match hex::decode_to_slice([b'0', byte], &mut value) {
        Ok(()) => u16::from(value[0]),
        Err(_) => NO_DIGIT,
    }
}
