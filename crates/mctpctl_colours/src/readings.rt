//! The readings that a shown capture has, each kept until the next one of its request comes.

use mctp_packet::Memory;
use std::alloc::Global;

/// How many requests are known at most: of more, no reading is compared.
const MAX_KNOWN: usize = 1_024;

/// The commands whose answers are readings (DSP0248).
const READ: [&[u8]; 4] = [
    b"GetSensorReading ",
    b"GetStateSensorReadings ",
    b"GetNumericEffecterValue ",
    b"GetStateEffecterStates ",
];

/// A request for a reading.
#[derive(Drop)]
struct Known {
    /// Who asks whom.
    ends: Vec<u8>,
    /// The instance ID that it had last.
    instance: Vec<u8>,
    /// The command with its arguments.
    command: Vec<u8>,
    /// What was answered last.
    answer: Option<Vec<u8>>,
}

/// The requests for readings that were shown, and what each was answered last.
#[derive(Drop)]
pub(crate) struct Readings {
    alloc: Global,
    known: Vec<Known>,
    /// Who sent the packet that was shown last, and to whom.
    from: Vec<u8>,
    to: Vec<u8>,
}

impl Readings {
    /// None so far.
    pub(crate) fn new(alloc: Global) -> Readings {
        Readings {
            alloc: alloc,
            known: Vec::new(alloc),
            from: Vec::new(alloc),
            to: Vec::new(alloc),
        }
    }

    /// Whether the line is a reading that differs from the one before.
    pub(crate) fn differs(&mut self, line: &[u8]) -> Result<bool, Memory> {
        if let Some((instance, text)) = message_after(b"  request ", line) {
            self.ask(instance, text)?;
            Ok(false)
        } else if let Some((instance, text)) = message_after(b"  response ", line) {
            self.answer(instance, text)
        } else {
            self.see_ends(line)?;
            Ok(false)
        }
    }

    /// Sees the line of a packet: a moment, and the endpoints with `>` between.
    fn see_ends(&mut self, line: &[u8]) -> Result<(), Memory> {
        if let Some((_, rest)) = cut(b' ', line)
            && let Some((ends, _)) = cut(b' ', rest)
            && let Some((from, to)) = cut(b'>', ends)
        {
            self.from.clear();
            self.from.extend_from_slice(from)?;
            self.to.clear();
            self.to.extend_from_slice(to)?;
        }
        Ok(())
    }

    /// Sees a request.
    fn ask(&mut self, instance: &[u8], command: &[u8]) -> Result<(), Memory> {
        if !READ.iter().any(|name| command.starts_with(name)) {
            return Ok(());
        }
        let ends = joined(self.alloc, &self.from, &self.to)?;
        for known in self.known.iter_mut() {
            if known.ends == ends && known.instance.as_slice() == instance {
                known.instance.clear(); // it is another request's now
            }
        }
        for known in self.known.iter_mut() {
            if known.ends == ends && known.command.as_slice() == command {
                known.instance.clear();
                known.instance.extend_from_slice(instance)?;
                return Ok(());
            }
        }
        if self.known.len() < MAX_KNOWN {
            self.known.push(Known {
                ends,
                instance: copied(self.alloc, instance)?,
                command: copied(self.alloc, command)?,
                answer: None,
            })?;
        }
        Ok(())
    }

    /// Sees an answer, and says whether it differs from the one before.
    fn answer(&mut self, instance: &[u8], text: &[u8]) -> Result<bool, Memory> {
        let ends = joined(self.alloc, &self.to, &self.from)?;
        for known in self.known.iter_mut() {
            if known.ends == ends && known.instance.as_slice() == instance {
                let answer = copied(self.alloc, text)?;
                let differs = match &known.answer {
                    Some(before) => *before != answer,
                    None => false,
                };
                known.answer = Some(answer);
                return Ok(differs);
            }
        }
        Ok(false)
    }
}

/// The instance ID and the text of a message's line that begins so.
fn message_after<'l>(front: &[u8], line: &'l [u8]) -> Option<(&'l [u8], &'l [u8])> {
    cut(b' ', line.strip_prefix(front)?)
}

/// What stands before the first such byte, and what after it.
fn cut(byte: u8, text: &[u8]) -> Option<(&[u8], &[u8])> {
    let end = memchr::memchr(byte, text)?;
    Some((&text[..end], &text[end + 1..]))
}

/// A copy of bytes.
fn copied(alloc: Global, bytes: &[u8]) -> Result<Vec<u8>, Memory> {
    let mut copy = Vec::new(alloc);
    copy.extend_from_slice(bytes)?;
    Ok(copy)
}

/// Two endpoints as one text.
fn joined(alloc: Global, from: &[u8], to: &[u8]) -> Result<Vec<u8>, Memory> {
    let mut both = copied(alloc, from)?;
    both.push(b'>')?;
    both.extend_from_slice(to)?;
    Ok(both)
}
