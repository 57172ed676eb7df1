//! Which line gets which colour.

use crate::paint::Colour;
use crate::readings::Readings;
use mctp_packet::Memory;
use std::alloc::Global;
use std::env;
use std::rt::Env;

/// What is printed, and so which lines get a colour.
#[derive(Drop)]
pub enum Marks {
    /// The tables of `watch`: a row that has changed begins with `*`.
    Tables,
    /// A capture that is shown: a packet or message that was dropped, and a reading that differs from the one before.
    Capture(CaptureMarks),
}

/// The readings of a capture so far.
#[derive(Drop)]
pub struct CaptureMarks(Readings);

impl Marks {
    /// A capture of which nothing was shown yet.
    pub fn of_capture(alloc: Global) -> Marks {
        Marks::Capture(CaptureMarks(Readings::new(alloc)))
    }

    /// The colour of the next line.
    pub fn colour(&mut self, line: &[u8]) -> Result<Colour, Memory> {
        match self {
            Marks::Tables if line.starts_with(b"* ") => Ok(Colour::Changed),
            Marks::Tables => Ok(Colour::Plain),
            Marks::Capture(_) if says_drop(line) => Ok(Colour::Dropped),
            Marks::Capture(CaptureMarks(readings)) => match readings.differs(line)? {
                true => Ok(Colour::Changed),
                false => Ok(Colour::Plain),
            },
        }
    }
}

/// Whether the line says that a packet or a message was dropped, or that bytes are no frame.
fn says_drop(line: &[u8]) -> bool {
    has_word(line, b" drop ") || has_word(line, b" no frame: ")
}

/// Whether these bytes stand in the line.
fn has_word(line: &[u8], word: &[u8]) -> bool {
    (0..line.len()).any(|place| line[place..].starts_with(word))
}

/// Whether colours are asked for: neither `NO_COLOR` is set to something, nor is the terminal a dumb one.
pub fn is_asked<R: Env + AllocGlobal>(rt: &R) -> bool {
    let none = match env::var(rt, "NO_COLOR") {
        Ok(value) => value.is_empty(),
        Err(_) => true,
    };
    let dumb = match env::var(rt, "TERM") {
        Ok(value) => value.as_str() == "dumb",
        Err(_) => false,
    };
    none && !dumb
}
