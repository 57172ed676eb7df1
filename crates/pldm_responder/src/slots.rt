//! The slots of a row: the answers to one source, each with the request that it answers.

ghost use Rattle.std.specs.Prelude.{◌≡◌, ◌<◌, ◌≤◌, ◌++◌, ◌∷◌, [], None, Some, IfOk, length, slice_index_or, slice_set};
ghost use Rattle.std.specs.Vec.{vec_capacity, vec_len};
ghost use Rattle.pldm_wire.specs.declared.assigned.TheConstants.{INSTANCE_IDS as ids};
ghost use Rattle.pldm_responder.specs.SlotBytes.{IsFilledWith, IsStored, MayBeFilled, empty_slot, no_entry, place_in, stored, with_place};
ghost use Rattle.pldm_responder.specs.Slots.{AreMessages};

use crate::kept_answer::{KeptAnswer, put_both};
use mctp_packet::{MAX_MESSAGE_BYTES, Memory, Moment};
use std::alloc::Global;
use std::marker::Model;

/// The most bytes of a message and the one that answers it.
const MAX_BYTES: usize = 2 * MAX_MESSAGE_BYTES;

/// How many bytes of a message and the one that answers it a slot itself has room for: enough for a reading, a
/// setting, a version and most other commands, whose two messages have 10 to 28 bytes. A slot is then as small as
/// its numbers allow, so that the answers to many sources lie in few cache lines.
const SLOT_BYTES: usize = 34;

/// A slot. The two messages stand one after the other: in the slot where they are short, else at the slot's place among
/// the long ones of its row.
#[derive(Debug, Drop)]
struct Slot {
    /// When the message came.
    moment: Moment,
    /// How many bytes the message has.
    asked: u16,
    /// How many bytes it and the one that answered it have.
    both: u16,
    /// The slot's place among the long ones, from its first long message on.
    place: Option<u8>,
    /// The message and the one that answered it, where they are short, and room.
    bytes: [u8; SLOT_BYTES],
}

// 32 slots for each of 246 sources: each is six words long.
const _: () = prove!(size_of::<Slot>() == 48);

impl Slot {
    /// A slot with no message.
    fn empty() -> Slot
        ensures { result ≡ empty_slot }
    {
        Slot {
            moment: Moment::new(0).unwrap(),
            asked: 0,
            both: 0,
            place: None,
            bytes: [0; SLOT_BYTES],
        }
    }

    /// The answer that it holds, which stands in it or at its place among the long ones.
    #[inline(always)]
    fn kept<'a>(&'a self, long: &'a [[u8; MAX_BYTES]]) -> KeptAnswer<'a>
        requires { IsStored self.now (length long.now) }
        ensures { result ≡ stored long.now self.now }
    {
        let both = usize::from(self.both);
        let bytes = if both <= SLOT_BYTES {
            &self.bytes[..both]
        } else {
            &long[usize::from(self.place.unwrap())][..both]
        };
        let (request, answer) = bytes.split_at(usize::from(self.asked));
        KeptAnswer::new(self.moment, request, answer)
    }

    /// Its place among the long ones, which it gets here where it has none yet.
    // Not inlined: the zeros of a new place lie on its stack, and short messages are not to pay for them.
    #[inline(never)]
    fn take_place(&mut self, long: &mut Vec<[u8; MAX_BYTES]>) -> usize
        requires few { length long.old.items ≤ ids }
        requires room { self.old.place ≡ None → vec_len long.old < vec_capacity long.old }
        ensures value { result ≡ place_in self.old.place (length long.old.items) }
        ensures place { self.new ≡ record self.old { place = Some result } }
        ensures long { long.new.items ≡ with_place self.old.place long.old.items }
        ensures capacity { vec_capacity long.new ≡ vec_capacity long.old }
    {
        if let Some(place) = self.place {
            return usize::from(place);
        }
        let place = long.len();
        long.push_reserved([0; MAX_BYTES]);
        self.place = Some(place as u8);
        place
    }

    /// Puts an answer in the place of the one that it holds. It writes the bytes that there are, and no room.
    #[inline(always)]
    fn fill(&mut self, long: &mut Vec<[u8; MAX_BYTES]>, moment: Moment, bytes: &[u8], answer: &[u8])
        requires slot { MayBeFilled self.old long.old.items (vec_capacity long.old) }
        requires messages { AreMessages bytes.now answer.now }
        ensures filled { IsFilledWith (record { moment = moment; bytes = bytes.now; answer = answer.now })
            self.old self.new long.old.items long.new.items }
        ensures capacity { vec_capacity long.new ≡ vec_capacity long.old }
    {
        let both = bytes.len() + answer.len();
        self.moment = moment;
        self.asked = bytes.len() as u16;
        self.both = both as u16;
        if both <= SLOT_BYTES {
            put_both(&mut self.bytes, bytes, answer);
            return;
        }
        let place = self.take_place(long);
        put_both(&mut long[place], bytes, answer);
    }
}

/// The slots that are in use, and the long messages of them. What no slot took is never written, so that its memory
/// stays untouched.
#[derive(Debug, Drop)]
pub(crate) struct Slots {
    slots: Vec<Slot>,
    /// There is room for a place for each slot.
    long: Vec<[u8; MAX_BYTES]>,
}

impl Model for Slots {
    ghost use Rattle.std.specs.Vec.{vec_capacity};
    ghost use Rattle.pldm_responder.specs.SlotBytes.{AreStored, Stored, coded_stored, entries_in};

    ghost Value = { Stored };

    ghost coded = { coded_stored };

    ghost view = { λ s. record { room = vec_capacity s.slots; entries = entries_in s.long.items s.slots.items } };

    ghost invariant = { λ s. AreStored s.slots.items s.long.items (vec_capacity s.slots) (vec_capacity s.long) };
}

impl Slots {
    /// None, with the room for so many and all that they will ever hold.
    pub(crate) fn new(alloc: Global, count: usize) -> Result<Slots, Memory>
        ensures none { IfOk result (λ slots. slots.entries ≡ []) }
        ensures room { IfOk result (λ slots. count ≤ slots.room) }
    {
        let slots = Vec::with_capacity(alloc, count)?;
        let long = Vec::with_capacity(alloc, count)?;
        Ok(Slots { slots, long })
    }

    /// How many there are.
    #[inline(always)]
    pub(crate) fn len(&self) -> usize
        ensures { result ≡ length self.now.entries }
    {
        self.slots.len()
    }

    /// The answer in a slot.
    #[inline(always)]
    pub(crate) fn get(&self, slot: usize) -> KeptAnswer<'_>
        requires { slot < length self.now.entries }
        ensures { result ≡ slice_index_or self.now.entries slot no_entry }
    {
        self.slots[slot].kept(&self.long)
    }

    /// Adds a slot with no message.
    // Not inlined: the zeros of a new slot lie on its stack, and the usual request is not to pay for them.
    #[inline(never)]
    pub(crate) fn add(&mut self)
        requires room { length self.old.entries < self.old.room }
        requires few { length self.old.entries < ids }
        ensures entries { self.new.entries ≡ self.old.entries ++ no_entry ∷ [] }
        ensures room { self.new.room ≡ self.old.room }
    {
        self.slots.push_reserved(Slot::empty());
    }

    /// Puts an answer into a slot, in the place of the one that it holds. It takes no memory.
    #[inline(always)]
    pub(crate) fn fill(&mut self, slot: usize, moment: Moment, bytes: &[u8], answer: &[u8])
        requires there { slot < length self.old.entries }
        requires messages { AreMessages bytes.now answer.now }
        ensures entries { self.new.entries ≡ slice_set self.old.entries slot
            (record { moment = moment; bytes = bytes.now; answer = answer.now }) }
        ensures room { self.new.room ≡ self.old.room }
    {
        self.slots[slot].fill(&mut self.long, moment, bytes, answer);
    }
}
