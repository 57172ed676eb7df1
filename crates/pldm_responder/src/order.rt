//! The order of the instance IDs of a source, by their latest requests.

ghost use Rattle.std.specs.Prelude.{◌≡◌, ◌<◌, ◌++◌, ◌∷◌, [], None, IsSome, length, slice_index_or};
ghost use Rattle.pldm_responder.specs.Orders.{IsOrderOf, IsRenewed, TakesSlot, slot_in};
ghost use Rattle.pldm_responder.specs.Recency.{of_number, without};

use crate::slot_table::SlotTable;
use std::marker::Model;

/// How many slots there are.
const SLOTS: usize = 32;

/// The place of both ends, after those of the slots.
const END: u8 = 32;

/// The places of the slots, and that of the ends.
const PLACES: usize = SLOTS + 1;

/// An instance ID, and the number of the slot that keeps its answer.
#[derive(Debug, Clone, Copy)]
pub(crate) struct Indexed {
    id: u8,
    slot: u8,
}

/// The slots in use, by the latest request of the instance ID of each, the oldest first: a ring of links, in which one
/// place stands for both ends. So a slot leaves it and comes last in few steps, whichever it is.
#[derive(Debug, Drop)]
pub(crate) struct Order {
    /// The instance ID of each slot.
    ids: [u8; SLOTS],
    /// The slot after each, and the oldest one after the end.
    next: [u8; PLACES],
    /// The slot before each, and the latest one before the end.
    previous: [u8; PLACES],
    /// How many slots are in the ring.
    count: u8,
}

impl Model for Order {
    ghost use Rattle.std.specs.Prelude.{List};
    ghost use Rattle.std.specs.Coded.{coded_list};
    ghost use Rattle.pldm_responder.specs.declared.order.Indexed.{Indexed};
    ghost use Rattle.pldm_responder.specs.Rings.{IsRing, coded_indexed, order_of, places_after};

    ghost Value = { List Indexed };

    ghost coded = { coded_list coded_indexed };

    ghost view = { λ o. order_of o.ids o.next o.count };

    ghost invariant = { λ o. IsRing o.next o.previous (places_after o.next 32 o.count) };
}

impl Order {
    /// No slot is in use.
    pub(crate) fn new() -> Order
        ensures { result ≡ [] }
    {
        Order {
            ids: [0; SLOTS],
            next: [END; PLACES],
            previous: [END; PLACES],
            count: 0,
        }
    }

    /// How many slots are in use.
    #[inline(always)]
    pub(crate) fn len(&self) -> u8
        ensures { result ≡ length self.now }
    {
        self.count
    }

    /// The oldest one.
    #[inline(always)]
    fn oldest(&self) -> Indexed
        requires { 0 < length self.now }
        ensures { result ≡ slice_index_or self.now 0 result }
    {
        let slot = self.next[usize::from(END)];
        let id = self.ids[usize::from(slot)];
        Indexed { id, slot }
    }

    /// Takes a slot out.
    #[inline(always)]
    fn take(&mut self, slot: u8)
        requires { IsSome (of_number slot_in slot self.old) }
        ensures { self.new ≡ without slot_in slot self.old }
    {
        let before = self.previous[usize::from(slot)];
        let after = self.next[usize::from(slot)];
        self.next[usize::from(before)] = after;
        self.previous[usize::from(after)] = before;
        self.count -= 1;
    }

    /// Puts a slot behind the others, for an instance ID.
    #[inline(always)]
    fn push(&mut self, id: u8, slot: u8)
        requires slot { slot < 32 }
        requires fresh { of_number slot_in slot self.old ≡ None }
        ensures { self.new ≡ self.old ++ record { id = id; slot = slot } ∷ [] }
    {
        let last = self.previous[usize::from(END)];
        self.next[usize::from(last)] = slot;
        self.previous[usize::from(slot)] = last;
        self.next[usize::from(slot)] = END;
        self.previous[usize::from(END)] = slot;
        self.ids[usize::from(slot)] = id;
        self.count += 1;
    }
}

/// Puts an instance ID behind the others, which stand the oldest first, and gives its slot: its own, else the next one
/// that no ID has, else that of the oldest, which falls out. The table has the slot of each by its ID.
#[inline(always)]
pub(crate) fn renew(order: &mut Order, table: &mut SlotTable, window: u8, id: u8) -> u8
    requires order { IsOrderOf window table.old order.old }
    requires id { id < 32 }
    ensures order { IsOrderOf window table.new order.new }
    ensures renewed { IsRenewed window id order.old order.new result }
    ensures slot { TakesSlot order.old order.new result }
{
    let slot = match table.get(id) {
        Some(slot) => {
            order.take(slot);
            slot
        }
        None if order.len() < window => order.len(),
        None => {
            let oldest = order.oldest();
            order.take(oldest.slot);
            table.clear(oldest.id);
            oldest.slot
        }
    };
    table.put(id, slot);
    order.push(id, slot);
    slot
}
