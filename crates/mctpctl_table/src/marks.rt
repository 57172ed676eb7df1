//! The rows of a table in columns, with marks where they changed.

ghost use Rattle.std.specs.Prelude.{◌≡◌, ◌++◌, OnOk, option_map};
ghost use Rattle.mctpctl_table.specs.Marks.{mark, marked_text};

use crate::columns::{push_line, width};
use crate::row::{Column, Row};
use crate::text::push_text;
use mctp_packet::Memory;

/// Adds rows in columns, each behind a mark that says whether it differs from the one at its place before.
pub(crate) fn push_marked_rows(
    out: &mut Vec<u8>,
    rows: &[Row],
    before: &[Row],
) -> Result<(), Memory>
    ensures { OnOk result (out.new.items ≡ out.old.items ++ marked_text rows.now before.now) }
{
    let what = width(Column::What, rows);
    let name = width(Column::Name, rows);
    let value = width(Column::Value, rows);
    for (place, row) in rows.iter().enumerate() {
        push_mark(out, row, before.get(place))?;
        push_line(out, what, name, value, row)?;
    }
    Ok(())
}

/// Adds the mark of a row where this one stood at its place before.
fn push_mark(out: &mut Vec<u8>, row: &Row, before: Option<&Row>) -> Result<(), Memory>
    ensures { OnOk result (out.new.items ≡ out.old.items ++ mark row.now (option_map (λ r. r.now) before.entry)) }
{
    match before {
        Some(before) if row.is_unchanged(before) => push_text(out, "  "),
        _ => push_text(out, "* "),
    }
}
