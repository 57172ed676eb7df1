//! Text that is gathered before it is written, so that most parts of a few bytes are copied without a call.

ghost use Rattle.std.specs.Fmt.{decimal};
ghost use Rattle.std.specs.Prelude.{◌≡◌, ◌≤◌, ◌+◌, ◌*◌, ◌++◌, ◌∷◌, [], length, IsTrue};
ghost use Rattle.hex.specs.Hex.{encode_lower};

use crate::digits::{put_digits, put_number};
use crate::hex_digits::put_hex;
use std::marker::Model;

/// The most bytes of a part: a drop with the longest name of a reason has 27, a number of 64 bits with a space 21.
pub(crate) const MAX_PART: usize = 32;

/// How many bytes a page has: lines are written many at a time.
pub(crate) const PAGE: usize = 4_096;

/// A part of a text, in a room of one size: all of that is copied, which costs less than to ask how much of it there
/// is.
#[derive(Drop)]
pub(crate) struct Part {
    room: [u8; MAX_PART],
    count: u8,
}

impl Model for Part {
    ghost use Rattle.std.specs.Prelude.{ℕ, ◌≤◌, List, take};
    ghost use Rattle.mctpctl_texts.specs.declared.page.TheConstants.{MAX_PART};

    ghost Value = { List ℕ };

    ghost view = { λ p. take p.count p.room };

    ghost invariant = { λ p. p.count ≤ MAX_PART };
}

impl Part {
    /// This text.
    pub(crate) fn new(text: &str) -> Part
        requires { length text.now ≤ MAX_PART }
        ensures { result ≡ text.now }
    {
        let bytes = text.as_bytes();
        let mut room = [0; MAX_PART];
        room[..bytes.len()].copy_from_slice(bytes);
        Part {
            room,
            count: bytes.len() as u8,
        }
    }

    /// A number in decimal, and a byte that ends it.
    pub(crate) fn of_number(number: u64, end: u8) -> Part
        ensures { result ≡ decimal number ++ end ∷ [] }
    {
        let mut room = [0; MAX_PART];
        let count = put_number(&mut room, 0, number, end);
        Part {
            room,
            count: count as u8,
        }
    }
}

/// Text that is gathered, part by part, before it is written.
#[derive(Drop)]
pub(crate) struct Page {
    room: [u8; PAGE],
    count: usize,
}

impl Model for Page {
    ghost use Rattle.std.specs.Prelude.{ℕ, ◌≤◌, List, take};
    ghost use Rattle.mctpctl_texts.specs.declared.page.TheConstants.{PAGE};

    ghost Value = { List ℕ };

    ghost view = { λ p. take p.count p.room };

    ghost invariant = { λ p. p.count ≤ PAGE };
}

impl Page {
    /// A page with nothing on it.
    pub(crate) fn new() -> Page
        ensures { result ≡ [] }
    {
        Page {
            room: [0; PAGE],
            count: 0,
        }
    }

    /// Its text.
    pub(crate) fn bytes(&self) -> &[u8]
        ensures { result.now ≡ self.now }
    {
        &self.room[..self.count]
    }

    /// Takes all text away.
    pub(crate) fn clear(&mut self)
        ensures { self.new ≡ [] }
    {
        self.count = 0;
    }

    /// Whether so many bytes more have room.
    pub(crate) fn has_room(&self, more: usize) -> bool
        requires { more ≤ PAGE }
        ensures { IsTrue result → length self.now + more ≤ PAGE }
    {
        self.count <= PAGE - more
    }

    /// Adds a part, for which there has to be room.
    // Inlined: a call would take as long as the work.
    #[inline(always)]
    pub(crate) fn add(&mut self, part: &Part)
        requires { length self.old + MAX_PART ≤ PAGE }
        ensures value { self.new ≡ self.old ++ part.now }
        ensures few { length self.new ≤ length self.old + MAX_PART }
    {
        let room = part.room; // read first: whether it overlaps this page is then not asked
        self.room[self.count..self.count + MAX_PART].copy_from_slice(&room);
        self.count += usize::from(part.count);
    }

    /// Adds a number in decimal, and a byte that ends it. There has to be room for a part.
    pub(crate) fn add_number(&mut self, number: u64, end: u8)
        requires { length self.old + MAX_PART ≤ PAGE }
        ensures value { self.new ≡ self.old ++ (decimal number ++ end ∷ []) }
        ensures few { length self.new ≤ length self.old + MAX_PART }
    {
        self.count = put_number(&mut self.room, self.count, number, end);
    }

    /// Adds a space and a number in decimal. There has to be room for a part.
    pub(crate) fn add_after_space(&mut self, number: u64)
        requires { length self.old + MAX_PART ≤ PAGE }
        ensures value { self.new ≡ self.old ++ 32 ∷ decimal number }
        ensures few { length self.new ≤ length self.old + MAX_PART }
    {
        self.room[self.count] = b' ';
        self.count = put_digits(&mut self.room, self.count + 1, number);
    }

    /// Adds a text that a part could hold, for which there has to be room.
    pub(crate) fn add_text(&mut self, text: &str)
        requires room { length self.old + MAX_PART ≤ PAGE }
        requires short { length text.now ≤ MAX_PART }
        ensures value { self.new ≡ self.old ++ text.now }
        ensures few { length self.new ≤ length self.old + MAX_PART }
    {
        let end = self.count + text.len();
        self.room[self.count..end].copy_from_slice(text.as_bytes());
        self.count = end;
    }

    /// Adds bytes in lower-case hex. There has to be room for their digits.
    pub(crate) fn add_hex(&mut self, bytes: &[u8])
        requires { length self.old + 2 * length bytes.now ≤ PAGE }
        ensures { self.new ≡ self.old ++ encode_lower bytes.now }
    {
        put_hex(bytes, &mut self.room[self.count..]);
        self.count += 2 * bytes.len();
    }
}
