//! Laws over the definitions alone: each function does nothing and ensures its law.

ghost use Rattle.pldm_line.specs.Laws.{LogsHaveAll};

use std::io::Write;

/// A [`crate::Log`] that saw events has the text of each, in order, while it has not failed: so does one that
/// watches a line, of the events that [`crate::serve`] names.
pub fn logs_have_all_events<N: Write, T: Write>()
    ensures { LogsHaveAll N.contents T.contents }
{}
