//! Words of a capture that are packets in hex, or look like one.

ghost use Rattle.std.specs.Prelude.{◌≡◌, is_ok};
ghost use Rattle.std.specs.Char.{is_ascii_hexdigit};
ghost use Rattle.std.specs.List.{list_all};
ghost use Rattle.hex.specs.Hex.{decode_of};
ghost use Rattle.mctpctl_input.specs.PacketWords.{looks_like_packet};

use mctp_packet::HEADER;

/// Whether a word of a capture looks like a packet: two hex digits for each byte, a header's bytes at least, and the
/// header version 1 (DSP0236, "MCTP packet fields").
pub fn looks_like_packet(word: &[u8]) -> bool
    ensures { result ≡ looks_like_packet word.now }
{
    is_hex(word) && word.len() % 2 == 0 && word.len() >= 2 * HEADER && word.starts_with(b"01")
}

/// Whether a word spells bytes: two hex digits of either case for each.
#[tactic(auto, using(crate::proofs::RefusedWords::spelled))]
pub(crate) fn spells_bytes(word: &[u8]) -> bool
    ensures { result ≡ is_ok (decode_of word.now) }
{
    word.len() % 2 == 0 && is_hex(word)
}

/// Whether all bytes are hex digits of either case.
fn is_hex(word: &[u8]) -> bool
    ensures { result ≡ list_all is_ascii_hexdigit word.now }
{
    word.iter().all(|byte| byte.is_ascii_hexdigit())
}
