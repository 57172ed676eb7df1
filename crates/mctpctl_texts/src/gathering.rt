//! Text added to a page in memory, which is written out when it is full.

ghost use Rattle.std.specs.Prelude.{◌≡◌, ◌≤◌, ◌+◌, [], length, OnOk};
ghost use Rattle.hex.specs.Hex.{encode_lower};
ghost use Rattle.mctpctl_texts.specs.Gathering.{Gathered};
ghost use Rattle.mctpctl_texts.specs.Writers.{Wrote};

use crate::page::{PAGE, Page};
use crate::text_writer::{HEX_PIECE, TextWriter};

/// Writes what is gathered.
pub(crate) fn flush<O: TextWriter>(out: &mut O, page: &mut Page) -> Result<(), O::Refusal>
    ensures wrote { Wrote O.contents O.failed O.refused out.old out.new page.old result }
    ensures empty { OnOk result (page.new ≡ []) }
{
    out.write_bytes(page.bytes())?;
    page.clear();
    Ok(())
}

/// Makes room for so many bytes more.
pub(crate) fn make_room<O: TextWriter>(
    out: &mut O,
    page: &mut Page,
    more: usize,
) -> Result<(), O::Refusal>
    requires { more ≤ PAGE }
    ensures gathered { Gathered O.contents O.failed O.refused out.old out.new page.old page.new [] result }
    ensures room { OnOk result (length page.new + more ≤ PAGE) }
{
    if page.has_room(more) {
        return Ok(());
    }
    flush(out, page)
}

/// Gathers bytes in lower-case hex, piece by piece.
pub(crate) fn gather_hex<O: TextWriter>(
    out: &mut O,
    page: &mut Page,
    bytes: &[u8],
) -> Result<(), O::Refusal>
    ensures { Gathered O.contents O.failed O.refused out.old out.new page.old page.new (encode_lower bytes.now) result }
{
    let mut rest = bytes;
    while !rest.is_empty() {
        let count = rest.len().min(HEX_PIECE);
        make_room(out, page, 2 * HEX_PIECE)?;
        page.add_hex(&rest[..count]);
        rest = &rest[count..];
    }
    Ok(())
}
