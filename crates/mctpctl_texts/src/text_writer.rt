//! What texts are written to: a vector, which grows, or a port.

ghost use Rattle.std.specs.Prelude.{◌≡◌, ℕ, Bool, List, Option, true, false, Some, ⊤};
ghost use Rattle.std.specs.Io.{StartsWith};
ghost use Rattle.hex.specs.Hex.{encode_lower};
ghost use Rattle.mctpctl_input.specs.Ports.{inner_of, has_failed};
ghost use Rattle.mctpctl_texts.specs.Writers.{KeepsFront, Wrote};

use mctp_packet::Memory;
use mctpctl_input::Port;
use std::alloc::AllocError;
use std::io::Write;

/// Takes a text part by part. A part that it refuses may be taken in part.
pub trait TextWriter {
    /// Why a part was refused.
    type Refusal;

    // what it has taken, where that is known
    ghost contents: { Self → Option (List ℕ) };

    // whether it has failed
    ghost failed: { Self → Bool };

    // what is known of it where it has refused a part
    ghost refused: { Self → Type 0 };

    // that what it has taken begins with these bytes, as far as that is known
    ghost begins: { Self → List ℕ → Type 0 };

    /// Takes bytes.
    fn write_bytes(&mut self, bytes: &[u8]) -> Result<(), Self::Refusal>
        ensures written { Wrote contents failed refused self.old self.new bytes.now result }
        ensures front { KeepsFront begins self.old self.new };

    /// Takes bytes in lower-case hex.
    fn write_hex(&mut self, bytes: &[u8]) -> Result<(), Self::Refusal>
        ensures written { Wrote contents failed refused self.old self.new (encode_lower bytes.now) result }
        ensures front { KeepsFront begins self.old self.new };
}

/// Refuses a part that it finds no memory for.
impl TextWriter for Vec<u8> {
    type Refusal = Memory;

    ghost contents = { λ taken. Some taken.items };

    ghost failed = { λ taken. false };

    ghost refused = { λ taken. ⊤ };

    ghost begins = { λ taken front. StartsWith taken.items front };

    fn write_bytes(&mut self, bytes: &[u8]) -> Result<(), Memory> {
        self.extend_from_slice(bytes)?;
        Ok(())
    }

    /// The digits are written in their place, which is taken at once.
    fn write_hex(&mut self, bytes: &[u8]) -> Result<(), Memory> {
        let start = self.len();
        let Some(end) = start.checked_add(2 * bytes.len()) else {
            return Err(AllocError.into()); // more bytes than an allocator can give
        };
        self.resize(end, 0)?;
        match hex::encode_to_slice(bytes, &mut self[start..]) {
            Ok(()) => Ok(()),
            Err(_) => unreachable!(),
        }
    }
}

/// A port did not take all of a text, and has failed.
#[derive(Clone, Copy, Debug)]
pub struct NotWritten;

/// How many bytes are spelled in hex at once: all of most messages, in a room small enough to be cleared each time.
pub(crate) const HEX_PIECE: usize = 64;

/// Refuses a part where a write fails; the port has failed then.
impl<W: Write> TextWriter for Port<W> {
    type Refusal = NotWritten;

    ghost contents = { λ port. W.contents (inner_of port) };

    ghost failed = { λ port. has_failed port };

    ghost refused = { λ port. has_failed port ≡ true };

    ghost begins = { λ port front. ⊤ };

    fn write_bytes(&mut self, bytes: &[u8]) -> Result<(), NotWritten> {
        match self.write_all(bytes) {
            Ok(()) => Ok(()),
            Err(_) => Err(NotWritten),
        }
    }

    /// The digits are made in a room of a few bytes, piece by piece, so that no memory is taken for them.
    fn write_hex(&mut self, bytes: &[u8]) -> Result<(), NotWritten> {
        let mut room = [0; 2 * HEX_PIECE];
        let mut rest = bytes;
        while !rest.is_empty() {
            let count = rest.len().min(HEX_PIECE);
            let digits = &mut room[..2 * count];
            match hex::encode_to_slice(&rest[..count], digits) {
                Ok(()) => {}
                Err(_) => unreachable!(),
            }
            self.write_bytes(digits)?;
            rest = &rest[count..];
        }
        Ok(())
    }
}
