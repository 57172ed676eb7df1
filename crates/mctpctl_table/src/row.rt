//! A row of the table: what it is of, its name, its value and its state.

ghost use Rattle.std.specs.Prelude.{◌≡◌};
ghost use Rattle.mctpctl_table.specs.Marks.{unchanged};
ghost use Rattle.mctpctl_table.specs.Tables.{cell, cells};

use std::marker::Model;

/// A column that is as wide as its longest cell.
#[derive(Clone, Copy, Debug)]
pub(crate) enum Column {
    /// What a row is of.
    What,
    /// Its name.
    Name,
    /// Its value with its unit.
    Value,
}

/// A row: four cells of text.
#[derive(Debug, Drop)]
pub(crate) struct Row {
    /// What it is.
    what: Vec<u8>,
    /// Its name.
    name: Vec<u8>,
    /// Its value with its unit.
    value: Vec<u8>,
    /// Its state.
    state: Vec<u8>,
}

impl Model for Row {
    ghost use Rattle.mctpctl_table.specs.Tables.{Cells, cells};

    ghost Value = { Cells };

    ghost view = { λ r. cells r.what.items r.name.items r.value.items r.state.items };
}

impl Row {
    /// The row of these cells.
    pub(crate) fn new(what: Vec<u8>, name: Vec<u8>, value: Vec<u8>, state: Vec<u8>) -> Row
        ensures { result ≡ cells what.items name.items value.items state.items }
    {
        Row {
            what,
            name,
            value,
            state,
        }
    }

    /// Its cell in this column.
    pub(crate) fn cell(&self, column: Column) -> &[u8]
        ensures { result.now ≡ cell column self.now }
    {
        match column {
            Column::What => &self.what,
            Column::Name => &self.name,
            Column::Value => &self.value,
        }
    }

    /// Its state.
    pub(crate) fn state(&self) -> &[u8]
        ensures { result.now ≡ self.now.state }
    {
        &self.state
    }

    /// Whether its value and its state are those of the row before.
    pub(crate) fn is_unchanged(&self, before: &Row) -> bool
        ensures { result ≡ unchanged self.now before.now }
    {
        self.value == before.value && self.state == before.state
    }
}
