//! A table that says, for each instance ID, which slot keeps its answer.

ghost use Rattle.std.specs.Prelude.{◌≡◌, ◌<◌, Some, None, replicate, slice_index_or, slice_set};

use std::marker::Model;

/// How many instance IDs there are, and at most as many slots.
const IDS: usize = 32;

/// What stands for no slot: no slot has this number.
const NO_SLOT: u8 = 32;

/// By instance ID, the number of its slot, if it has one: a byte each, so that a table is half a cache line.
#[derive(Debug, Drop)]
pub(crate) struct SlotTable {
    slots: [u8; IDS],
}

impl Model for SlotTable {
    ghost use Rattle.std.specs.Coded.{coded_list, coded_option, coded_ℕ};
    ghost use Rattle.std.specs.Prelude.{List, Option, ℕ};
    ghost use Rattle.pldm_responder.specs.Orders.{numbered_slots};

    ghost Value = { List (Option ℕ) };

    ghost coded = { coded_list (coded_option coded_ℕ) };

    ghost view = { λ t. numbered_slots t.slots };
}

impl SlotTable {
    /// No instance ID has a slot.
    pub(crate) fn new() -> SlotTable
        ensures { result ≡ replicate 32 None }
    {
        SlotTable {
            slots: [NO_SLOT; IDS],
        }
    }

    /// The slot of an instance ID.
    #[inline(always)]
    pub(crate) fn get(&self, id: u8) -> Option<u8>
        requires { id < 32 }
        ensures { result ≡ slice_index_or self.now id None }
    {
        match self.slots[usize::from(id)] {
            NO_SLOT => None,
            slot => Some(slot),
        }
    }

    /// Gives an instance ID a slot.
    #[inline(always)]
    pub(crate) fn put(&mut self, id: u8, slot: u8)
        requires id { id < 32 }
        requires slot { slot < 32 }
        ensures { self.new ≡ slice_set self.old id (Some slot) }
    {
        self.slots[usize::from(id)] = slot;
    }

    /// Takes the slot of an instance ID away.
    #[inline(always)]
    pub(crate) fn clear(&mut self, id: u8)
        requires { id < 32 }
        ensures { self.new ≡ slice_set self.old id None }
    {
        self.slots[usize::from(id)] = NO_SLOT;
    }
}
