//! The assignments of endpoint IDs that were accepted last, by which a later copy of a request is known.

ghost use Rattle.std.specs.Prelude.{◌≡◌, ◌≤◌, [], find, length};
ghost use Rattle.mctp_control.specs.Assignments.{is_copy_of, kept_with};

use crate::SET_MESSAGE_BYTES;
use arrayvec::ArrayVec;
use mctp_packet::{Eid, Keep, MIN_EID, Moment, NULL_EID};
use std::marker::Model;

/// How many assignments are kept. This profile's own number.
pub const KEPT_ASSIGNMENTS: usize = 8;

/// A request of Set Endpoint ID that was accepted (DSP0236, "Set Endpoint ID").
#[derive(Clone, Copy, Debug, PartialEq, Eq)]
pub struct KeptAssignment {
    /// The endpoint ID that it came from, or the null one.
    pub source: u8,
    /// The bytes of its message.
    pub message: [u8; SET_MESSAGE_BYTES],
    /// When it came.
    pub moment: Moment,
    /// The endpoint ID that it was answered with.
    pub eid: Eid,
}

impl Default for KeptAssignment {
    /// What fills a place in which no assignment is kept.
    fn default() -> Self {
        KeptAssignment {
            source: NULL_EID,
            message: [0; SET_MESSAGE_BYTES],
            moment: Moment::new(0).unwrap(),
            eid: Eid::new(MIN_EID).unwrap(),
        }
    }
}

impl KeptAssignment {
    /// Whether a message that came from this source at the moment `now` is a copy of it.
    fn is_copied(&self, keep: Keep, now: Moment, source: u8, message: &[u8]) -> bool
        ensures { result ≡ is_copy_of keep now source message.now self.now }
    {
        source == self.source
            && message == self.message.as_slice()
            && now.get() < self.moment.get() + u64::from(keep.get())
    }
}

/// The assignments that were accepted last, at most [`KEPT_ASSIGNMENTS`], the newest first.
#[derive(Debug, Drop)]
pub struct KeptAssignments {
    list: ArrayVec<KeptAssignment, KEPT_ASSIGNMENTS>,
}

impl Model for KeptAssignments {
    ghost use Rattle.std.specs.Coded.{coded_list};
    ghost use Rattle.std.specs.Prelude.{List};
    ghost use Rattle.mctp_control.specs.contracts.kept_assignments.KeptAssignment as assignment_type;
    ghost use Rattle.mctp_control.specs.declared.kept_assignments.KeptAssignment.{KeptAssignment as KeptAssignmentValue};

    ghost Value = { List KeptAssignmentValue };

    ghost coded = { coded_list assignment_type.the_row.coded };

    ghost view = { λ k. k.list.items };
}

impl KeptAssignments {
    /// No assignments.
    pub fn new() -> KeptAssignments
        ensures { result ≡ [] }
    {
        KeptAssignments {
            list: ArrayVec::new(),
        }
    }

    /// The assignments, the newest first.
    pub fn as_slice(&self) -> &[KeptAssignment]
        ensures value { result.now ≡ self.now }
        ensures few { length result.now ≤ KEPT_ASSIGNMENTS }
    {
        self.list.as_slice()
    }

    /// The newest assignment that a message repeats, which came from this source at the moment `now`.
    pub(crate) fn copied(
        &self,
        keep: Keep,
        now: Moment,
        source: u8,
        message: &[u8],
    ) -> Option<KeptAssignment>
        ensures { result ≡ find (is_copy_of keep now source message.now) self.now }
    {
        self.list
            .iter()
            .copied()
            .find(|kept| kept.is_copied(keep, now, source, message))
    }

    /// Keeps one more, as the newest. Where there are then too many, the oldest is dropped.
    pub(crate) fn put(&mut self, new: KeptAssignment)
        ensures { self.new ≡ kept_with new self.old }
    {
        if self.list.is_full() {
            self.list.pop();
        }
        self.list.insert(0, new);
    }
}
