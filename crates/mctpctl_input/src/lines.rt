//! The line that divides an input.

ghost use Rattle.std.specs.Prelude.{◌≡◌};
ghost use Rattle.mctpctl_input.specs.TextLines.{is_divider};

use line_words::without_cr;

/// Whether the line is `%%`, with a CR at its end or without.
pub fn is_divider(line: &[u8]) -> bool
    ensures { result ≡ is_divider line.now }
{
    without_cr(line) == b"%%".as_slice()
}
