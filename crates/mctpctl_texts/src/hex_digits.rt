//! Bytes in hex, by digits that are computed.

ghost use Rattle.std.specs.Prelude.{◌≡◌, ◌≤◌, ◌<◌, ◌*◌, ◌++◌, length, drop, slice_index};
ghost use Rattle.hex.specs.Hex.{encode_lower, lower_digits};

/// Puts bytes in lower-case hex in front of `room`, whose rest is left as it was. No table is looked up: where there
/// are many bytes, the processor spells sixteen at once.
pub(crate) fn put_hex(bytes: &[u8], room: &mut [u8])
    requires { 2 * length bytes.now ≤ length room.old }
    ensures { room.new ≡ encode_lower bytes.now ++ drop (2 * length bytes.now) room.old }
{
    for place in 0..bytes.len() {
        let byte = bytes[place];
        room[2 * place] = digit(byte / 16);
        room[2 * place + 1] = digit(byte % 16);
    }
}

/// The digit of half a byte.
#[inline(always)]
fn digit(half: u8) -> u8
    requires { half < 16 }
    ensures { result ≡ slice_index lower_digits half }
{
    if half < 10 {
        b'0' + half
    } else {
        b'a' + (half - 10)
    }
}
