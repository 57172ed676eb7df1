//! The rows of the table laid out in columns, each as wide as its longest cell.

ghost use Rattle.std.specs.Prelude.{◌≡◌, ◌++◌, OnOk};
ghost use Rattle.mctpctl_table.specs.Tables.{characters, line, padded, table_text, width};

use crate::row::{Column, Row};
use crate::text::{push_bytes, push_repeated, push_text};
use mctp_packet::Memory;

/// Adds rows in columns that are as wide as their longest cells, and two spaces between.
pub(crate) fn push_rows(out: &mut Vec<u8>, rows: &[Row]) -> Result<(), Memory>
    ensures { OnOk result (out.new.items ≡ out.old.items ++ table_text rows.now) }
{
    let what = width(Column::What, rows);
    let name = width(Column::Name, rows);
    let value = width(Column::Value, rows);
    for row in rows {
        push_line(out, what, name, value, row)?;
    }
    Ok(())
}

/// How many characters of UTF-8 a text has.
fn characters(text: &[u8]) -> usize
    ensures { result ≡ characters text.now }
{
    text.iter().filter(|byte| **byte / 64 != 2).count()
}

/// The characters of the longest cell of a column.
pub(crate) fn width(column: Column, rows: &[Row]) -> usize
    ensures { result ≡ width column rows.now }
{
    let mut widest = 0;
    for row in rows {
        widest = widest.max(characters(row.cell(column)));
    }
    widest
}

/// Adds a cell, and spaces up to the next column.
fn push_padded(out: &mut Vec<u8>, width: usize, cell: &[u8]) -> Result<(), Memory>
    ensures { OnOk result (out.new.items ≡ out.old.items ++ padded width cell.now) }
{
    push_bytes(out, cell)?;
    push_repeated(out, b' ', width.saturating_sub(characters(cell)))?;
    push_text(out, "  ")
}

/// Adds a row in columns of these widths.
#[tactic(auto, unfolding(crate::specs::Tables::line))]
pub(crate) fn push_line(
    out: &mut Vec<u8>,
    what: usize,
    name: usize,
    value: usize,
    row: &Row,
) -> Result<(), Memory>
    ensures { OnOk result (out.new.items ≡ out.old.items ++ line what name value row.now) }
{
    push_padded(out, what, row.cell(Column::What))?;
    push_padded(out, name, row.cell(Column::Name))?;
    push_padded(out, value, row.cell(Column::Value))?;
    push_bytes(out, row.state())?;
    push_text(out, "\n")
}
