//! The rows of a table as comma-separated values.

ghost use Rattle.std.specs.Prelude.{◌≡◌, ◌++◌, OnOk};
ghost use Rattle.std.specs.List.{flat_map};
ghost use Rattle.mctpctl_table.specs.Logs.{escaped, log_line, log_text, quoted};

use crate::row::{Column, Row};
use crate::text::{push_bytes, push_number, push_text};
use mctp_packet::Memory;

/// Adds a line for each row, of this moment in milliseconds.
pub(crate) fn push_log_lines(out: &mut Vec<u8>, moment: u64, rows: &[Row]) -> Result<(), Memory>
    ensures { OnOk result (out.new.items ≡ out.old.items ++ log_text moment rows.now) }
{
    for row in rows {
        push_log_line(out, moment, row)?;
    }
    Ok(())
}

/// Adds the line of a row.
#[tactic(auto, unfolding(crate::specs::Logs::log_line))]
fn push_log_line(out: &mut Vec<u8>, moment: u64, row: &Row) -> Result<(), Memory>
    ensures { OnOk result (out.new.items ≡ out.old.items ++ log_line moment row.now) }
{
    push_number(out, moment)?;
    push_text(out, ",")?;
    push_bytes(out, row.cell(Column::What))?;
    push_text(out, ",")?;
    push_quoted(out, row.cell(Column::Name))?;
    push_text(out, ",")?;
    push_quoted(out, row.cell(Column::Value))?;
    push_text(out, "\n")
}

/// Adds a text between quotes.
fn push_quoted(out: &mut Vec<u8>, text: &[u8]) -> Result<(), Memory>
    ensures { OnOk result (out.new.items ≡ out.old.items ++ quoted text.now) }
{
    push_text(out, "\"")?;
    push_all_escaped(out, text)?;
    push_text(out, "\"")
}

/// Adds the bytes of a text that stands between quotes.
fn push_all_escaped(out: &mut Vec<u8>, text: &[u8]) -> Result<(), Memory>
    ensures { OnOk result (out.new.items ≡ out.old.items ++ flat_map escaped text.now) }
{
    for byte in text {
        push_escaped(out, *byte)?;
    }
    Ok(())
}

/// Adds a byte, a quote twice.
fn push_escaped(out: &mut Vec<u8>, byte: u8) -> Result<(), Memory>
    ensures { OnOk result (out.new.items ≡ out.old.items ++ escaped byte) }
{
    if byte == b'"' {
        out.push(byte)?;
    }
    out.push(byte)?;
    Ok(())
}
