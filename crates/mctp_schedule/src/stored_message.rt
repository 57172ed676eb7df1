//! A message that is kept: a short one in place, a longer one in the arena of the run.

ghost use Rattle.std.specs.Prelude.{◌≡◌, ◌≤◌, ◌<◌, ◌^◌, [], length, IfOk};

use crate::Delivery;
use bumpalo::Bump;
use mctp_packet::Memory;
use std::alloc::Global;
use std::marker::Model;

/// The most bytes of an answer that is stored in place: one with a sensor's reading has no more.
pub(crate) const MAX_SHORT: usize = 15;

/// The bytes of a short message, at most `MOST`. Their count is one byte long.
#[derive(Debug, Drop)]
pub(crate) struct ShortMessage<const MOST: usize> {
    /// Takes no room. By it a message lies on whole words, and is moved by whole words that do not overlap.
    words: [u64; 0],
    room: [u8; MOST],
    count: u8,
}

impl<const MOST: usize> Model for ShortMessage<MOST> {
    ghost use Rattle.std.specs.Prelude.{ℕ, ◌≤◌, List, take};

    ghost Value = { List ℕ };

    ghost view = { λ m. take m.count m.room };

    ghost invariant = { λ m. m.count ≤ MOST };
}

impl<const MOST: usize> ShortMessage<MOST> {
    /// No bytes.
    pub(crate) fn empty() -> ShortMessage<MOST>
        ensures { result ≡ [] }
    {
        ShortMessage {
            words: [],
            room: [0; MOST],
            count: 0,
        }
    }

    /// These bytes.
    // Inlined: it is then made where it is put first.
    #[inline(always)]
    pub(crate) fn new(bytes: &[u8]) -> ShortMessage<MOST>
        requires few { length bytes.now ≤ MOST }
        requires counted { MOST < 2 ^ 8 }
        ensures { result ≡ bytes.now }
    {
        let mut message = ShortMessage::empty();
        message.set(bytes);
        message
    }

    /// Its bytes are these from now on.
    pub(crate) fn set(&mut self, bytes: &[u8])
        requires few { length bytes.now ≤ MOST }
        requires counted { MOST < 2 ^ 8 }
        ensures { self.new ≡ bytes.now }
    {
        self.room[..bytes.len()].copy_from_slice(bytes);
        self.count = bytes.len() as u8;
    }

    /// The bytes.
    pub(crate) fn bytes(&self) -> &[u8]
        ensures bytes { result.now ≡ self.now }
        ensures few { length result.now ≤ MOST }
    {
        &self.room[..usize::from(self.count)]
    }
}

/// The bytes of a longer message, which lie where those of the answer of `other` do if both are the same: an
/// answer, its copies and what its requester got take their room once.
pub(crate) fn share_or_store<'a>(
    arena: &'a Bump<Global>,
    bytes: &[u8],
    other: Option<&Delivery<'a>>,
) -> Result<&'a [u8], Memory>
    ensures { IfOk result (λ message. message.now ≡ bytes.now) }
{
    let shared = match other {
        Some(other) => other.share(bytes),
        None => None,
    };
    match shared {
        Some(shared) => Ok(shared),
        None => Ok(arena.try_alloc_slice_copy(bytes)?),
    }
}
