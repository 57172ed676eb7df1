//! The table of a device's sensors and effecters: rows added from records and answers, and printed.

ghost use Rattle.std.specs.Prelude.{◌≡◌, ◌++◌, [], OnErr, OnOk, Some, option_map};
ghost use Rattle.mctpctl_table.specs.Logs.{log_text};
ghost use Rattle.mctpctl_table.specs.Marks.{marked_text};
ghost use Rattle.mctpctl_table.specs.Rows.{rows_by};
ghost use Rattle.mctpctl_table.specs.Tables.{table_text};

use crate::columns::push_rows;
use crate::described::Described;
use crate::log::push_log_lines;
use crate::marks::push_marked_rows;
use crate::row::Row;
use crate::rows::push_data_rows;
use mctp_packet::Memory;
use std::alloc::Global;
use std::marker::Model;

/// The rows of sensors and effecters, one after another.
#[derive(Debug, Drop)]
pub struct Table {
    alloc: Global,
    rows: Vec<Row>,
}

impl Model for Table {
    ghost use Rattle.std.specs.Prelude.{List};
    ghost use Rattle.mctpctl_table.specs.Tables.{Cells};

    ghost Value = { List Cells };

    ghost view = { λ t. t.rows.items };
}

impl Table {
    /// A table of no rows.
    pub fn new(alloc: Global) -> Table
        ensures { result ≡ [] }
    {
        Table {
            alloc,
            rows: Vec::new(alloc),
        }
    }

    /// Adds the rows of the sensor or effecter that a record describes, none where it describes none. `message` is the
    /// whole response that came to GetSensorReading, GetStateSensorReadings, GetNumericEffecterValue or
    /// GetStateEffecterStates. Out of memory leaves the table as it was.
    pub fn add(&mut self, described: &Described, message: Option<&[u8]>) -> Result<(), Memory>
        ensures ok { OnOk result (self.new
            ≡ self.old ++ rows_by (Some described.now) (option_map (λ bytes. bytes.now) message.entry)) }
        ensures err { OnErr result (self.new ≡ self.old) }
    {
        let mut rows = Vec::new(self.alloc);
        push_data_rows(
            &mut rows,
            self.alloc,
            described.contents(),
            described.names(),
            message,
        )?;
        self.rows.append(&mut rows)?;
        Ok(())
    }

    /// Adds the table as text: a line for each row, each column but the last as wide as its longest cell, in
    /// characters, and two spaces between columns. Out of memory may leave a part of it.
    pub fn push_text(&self, out: &mut Vec<u8>) -> Result<(), Memory>
        ensures { OnOk result (out.new.items ≡ out.old.items ++ table_text self.now) }
    {
        push_rows(out, &self.rows)
    }

    /// Adds the table as `push_text` does, with two characters in front of each line: `* ` where the row at the same
    /// place of `before` has another value or another state, or where `before` has no row at that place, else two
    /// spaces. Out of memory may leave a part of the text in `out`.
    pub fn push_marked(&self, before: &Table, out: &mut Vec<u8>) -> Result<(), Memory>
        ensures { OnOk result (out.new.items ≡ out.old.items ++ marked_text self.now before.now) }
    {
        push_marked_rows(out, &self.rows, &before.rows)
    }

    /// Adds a line of comma-separated values for each row, as `1200,sensor 1,"4200 rpm"`: the moment in milliseconds,
    /// what the row is of, and its value between quotes, with a quote inside written twice (RFC 4180, section 2). A
    /// line ends with a line feed. Out of memory may leave a part of the text in `out`.
    pub fn push_log(&self, moment: u64, out: &mut Vec<u8>) -> Result<(), Memory>
        ensures { OnOk result (out.new.items ≡ out.old.items ++ log_text moment self.now) }
    {
        push_log_lines(out, moment, &self.rows)
    }
}
