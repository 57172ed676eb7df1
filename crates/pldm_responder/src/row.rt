//! The answers that are kept for one source, one for each of its latest instance IDs.

ghost use Rattle.std.specs.Prelude.{◌≡◌, ◌<◌, ◌≤◌, [], length};
ghost use Rattle.pldm_wire.specs.declared.assigned.TheConstants.{INSTANCE_IDS as ids};
ghost use Rattle.pldm_responder.specs.ResponderStates.{id_in};
ghost use Rattle.pldm_responder.specs.Recency.{of_number};
ghost use Rattle.pldm_responder.specs.Slots.{MayBeKept, in_front, in_place};

use crate::kept_answer::KeptAnswer;
use crate::order::{Order, renew};
use crate::slot_table::SlotTable;
use crate::slots::Slots;
use mctp_packet::Moment;
use pldm_wire::Window;
use std::marker::Model;

/// The answers that are kept to one source: one to each of its latest instance IDs, as many as the window allows. The
/// room for all of them is taken at once.
#[derive(Debug, Drop)]
pub(crate) struct Row {
    window: Window,
    /// The slot of each instance ID that has one.
    table: SlotTable,
    /// Which slot each of these instance IDs has, the oldest first.
    order: Order,
    /// The slots.
    slots: Slots,
}

impl Model for Row {
    ghost use Rattle.pldm_responder.specs.Orders.{newest_first};
    ghost use Rattle.pldm_responder.specs.Slots.{Answers, coded_answers};
    ghost use Rattle.pldm_responder.specs.SourceAnswers.{AreLatest, kept_by};

    ghost Value = { Answers };

    ghost coded = { coded_answers };

    ghost view = { λ r. record { window = r.window; kept = kept_by r.slots.entries (newest_first r.order) } };

    ghost invariant = { λ r. AreLatest r.window r.table r.slots.entries r.order r.slots.room };
}

impl Row {
    /// No answers, over slots of which none is in use, and which have the room for all that will ever be kept.
    // It cannot fail, and so a row is not moved out of a result: it lies on its caller's stack once.
    #[inline(always)]
    pub(crate) fn new(window: Window, slots: Slots) -> Row
        requires none { slots.entries ≡ [] }
        requires room { window ≤ slots.room }
        ensures { result ≡ record { window = window; kept = [] } }
    {
        let _range = window.get(); // for the proof: 1 to 32
        Row {
            window,
            table: SlotTable::new(),
            order: Order::new(),
            slots,
        }
    }

    /// The answer that is kept for an instance ID.
    #[inline(always)]
    pub(crate) fn get(&self, id: u8) -> Option<KeptAnswer<'_>>
        requires { id < ids }
        ensures { result ≡ of_number id_in id self.now.kept }
    {
        let slot = self.table.get(id)?;
        Some(self.slots.get(usize::from(slot)))
    }

    /// Puts the answer to a message in front, in the place of the one of its instance ID; where there are more than the
    /// window allows, the last one falls out. It takes no memory.
    #[inline(always)]
    pub(crate) fn put(&mut self, id: u8, moment: Moment, bytes: &[u8], answer: &[u8])
        requires { MayBeKept id bytes.now answer.now }
        ensures { self.new ≡ record {
          window = self.old.window;
          kept = in_front self.old.window
              (record { moment = moment; bytes = bytes.now; answer = answer.now }) self.old.kept;
        } }
    {
        let window = self.window.get();
        let slot = usize::from(renew(&mut self.order, &mut self.table, window, id));
        if slot == self.slots.len() {
            self.slots.add();
        }
        self.slots.fill(slot, moment, bytes, answer);
    }

    /// Puts the answer to a message in the place of the one of its instance ID, where one is kept.
    pub(crate) fn replace(&mut self, id: u8, moment: Moment, bytes: &[u8], answer: &[u8])
        requires { MayBeKept id bytes.now answer.now }
        ensures { self.new ≡ record {
          window = self.old.window;
          kept = in_place (record { moment = moment; bytes = bytes.now; answer = answer.now }) self.old.kept;
        } }
    {
        if let Some(slot) = self.table.get(id) {
            self.slots.fill(usize::from(slot), moment, bytes, answer);
        }
    }

    /// How many answers there are.
    pub(crate) fn len(&self) -> usize
        ensures value { result ≡ length self.now.kept }
        ensures few { result ≤ ids }
    {
        usize::from(self.order.len())
    }
}
