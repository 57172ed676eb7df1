//! The two hex digits of each byte, in a table that the crate `hex` fills.

ghost use Rattle.std.specs.Prelude.{◌≡◌, ◌≤◌, ◌*◌, ◌∷◌, ◌++◌, [], length, drop};
ghost use Rattle.hex.specs.Hex.{encode_lower};
ghost use Rattle.mctpctl_texts.specs.HexPairs.{HoldsPairs};

use std::marker::Model;

/// How many bytes there are.
const BYTES: usize = 256;

/// What the crate `hex` writes of each byte. A text of many bytes is written by looking up two digits at once, where
/// `hex` looks up one after the other.
#[derive(Drop)]
pub struct HexPairs {
    /// At the place of each byte its two digits, lower-case.
    pairs: [[u8; 2]; BYTES],
}

impl Model for HexPairs {
    ghost use Rattle.std.specs.Prelude.{List, ℕ};
    ghost use Rattle.mctpctl_texts.specs.HexPairs.{HoldsPairs};

    ghost Value = { List (List ℕ) };

    ghost view = { λ p. p.pairs };

    ghost invariant = { λ p. HoldsPairs p.pairs };
}

impl HexPairs {
    /// Asks `hex` for each byte.
    pub fn new() -> HexPairs
        ensures { HoldsPairs result }
    {
        let mut pairs = [[0; 2]; BYTES];
        for byte in 0..BYTES {
            pairs[byte] = pair_of(byte as u8);
        }
        HexPairs { pairs }
    }

    /// Puts bytes in lower-case hex in front of `room`, whose rest is left as it was.
    pub(crate) fn spell(&self, bytes: &[u8], room: &mut [u8])
        requires { 2 * length bytes.now ≤ length room.old }
        ensures { room.new ≡ encode_lower bytes.now ++ drop (2 * length bytes.now) room.old }
    {
        for place in 0..bytes.len() {
            let [high, low] = self.pairs[usize::from(bytes[place])];
            room[2 * place] = high;
            room[2 * place + 1] = low;
        }
    }
}

/// The two digits that `hex` writes of a byte.
fn pair_of(byte: u8) -> [u8; 2]
    ensures { result ≡ encode_lower (byte ∷ []) }
{
    let mut pair = [0; 2];
    match hex::encode_to_slice([byte], &mut pair) {
        Ok(()) => pair,
        Err(_) => unreachable!(),
    }
}
