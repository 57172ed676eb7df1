//! The requesters of a schedule.

ghost use Rattle.std.specs.Prelude.{◌≡◌, ◌++◌, ◌∷◌, [], OnOk, OnErr};
ghost use Rattle.schedule_text.specs.Schedules.{has_requester};

use crate::RequesterLine;
use mctp_packet::{Eid, Memory};
use std::alloc::Global;
use std::marker::Model;

/// How many numbers an endpoint ID may be.
const EID_NUMBERS: usize = 256;

/// The requesters, in the order of their lines, and which endpoint IDs they have: each step that names one asks
/// for that.
#[derive(Debug, Drop)]
pub(crate) struct Requesters {
    lines: Vec<RequesterLine>,
    /// Whether a requester has the endpoint ID of this number.
    known: [bool; EID_NUMBERS],
}

impl Model for Requesters {
    ghost use Rattle.std.specs.Prelude.{List};
    ghost use Rattle.schedule_text.specs.Schedules.{IsTable};
    ghost use Rattle.schedule_text.specs.declared.step.RequesterLine.{RequesterLine};

    ghost Value = { List RequesterLine };

    ghost view = { λ r. r.lines.items };

    ghost invariant = { λ r. IsTable r.known r.lines.items };
}

impl Requesters {
    /// Those of no line.
    pub(crate) fn new(alloc: Global) -> Requesters
        ensures { result ≡ [] }
    {
        Requesters {
            lines: Vec::new(alloc),
            known: [false; EID_NUMBERS],
        }
    }

    /// All of them.
    pub(crate) fn lines(&self) -> &[RequesterLine]
        ensures { result.now ≡ self.now }
    {
        &self.lines
    }

    /// Whether one of them has this endpoint ID.
    pub(crate) fn has(&self, eid: Eid) -> bool
        ensures { result ≡ has_requester self.now eid }
    {
        self.known[usize::from(eid.get())]
    }

    /// Adds the next one.
    pub(crate) fn push(&mut self, line: RequesterLine) -> Result<(), Memory>
        ensures ok { OnOk result (self.new ≡ self.old ++ line ∷ []) }
        ensures err { OnErr result (self.new ≡ self.old) }
    {
        let number = usize::from(line.eid.get());
        self.lines.push(line)?;
        self.known[number] = true;
        Ok(())
    }
}
