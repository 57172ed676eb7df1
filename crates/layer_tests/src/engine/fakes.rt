//! Readers and writers for tests.

use std::io;
use std::io::{Error, ErrorKind, Read, Write};

/// Room for all that an engine writes in a test. It is taken before the run, so that the writer needs no memory in it.
pub const TEXT_ROOM: usize = 4_096;

/// Gives `bytes` in pieces of at most `piece` bytes.
#[derive(Drop)]
pub struct PieceReader<'a> {
    pub bytes: &'a [u8],
    pub piece: usize,
}

impl Read for PieceReader<'_> {
    fn read(&mut self, buf: &mut [u8]) -> io::Result<usize> {
        let count = self.bytes.len().min(self.piece).min(buf.len());
        let (piece, rest) = self.bytes.split_at(count);
        buf[..count].copy_from_slice(piece);
        self.bytes = rest;
        Ok(count)
    }
}

/// Takes at most `piece` bytes at a call, and counts the flushes.
#[derive(Drop)]
pub struct PieceWriter {
    pub taken: Vec<u8>,
    pub piece: usize,
    pub flushes: usize,
}

impl PieceWriter {
    /// Adds to these bytes what it takes.
    pub fn new(taken: Vec<u8>, piece: usize) -> PieceWriter {
        PieceWriter {
            taken,
            piece,
            flushes: 0,
        }
    }
}

impl Write for PieceWriter {
    fn write(&mut self, buf: &[u8]) -> io::Result<usize> {
        let count = buf.len().min(self.piece);
        self.taken.extend_from_slice(&buf[..count])?;
        Ok(count)
    }

    fn flush(&mut self) -> io::Result<()> {
        self.flushes = self.flushes.saturating_add(1);
        Ok(())
    }
}

/// Passes calls on to a reader or writer and counts them. The one after `calls_left` others is answered
/// with the error that std's own helpers try again; every later one is passed on again where `recovers`,
/// and else is answered so too.
#[derive(Drop)]
pub struct FailsAt<T> {
    pub inner: T,
    pub calls_left: usize,
    pub recovers: bool,
    pub calls: usize,
}

impl<T> FailsAt<T> {
    /// Fails at the call after these others, and at each later one unless it recovers.
    pub fn new(inner: T, calls_left: usize, recovers: bool) -> FailsAt<T> {
        FailsAt {
            inner,
            calls_left,
            recovers,
            calls: 0,
        }
    }

    /// Fails at the call after these, and at no other.
    pub fn once(inner: T, calls_left: usize) -> FailsAt<T> {
        FailsAt::new(inner, calls_left, true)
    }

    fn count(&mut self) -> io::Result<()> {
        let calls = self.calls;
        self.calls = calls.saturating_add(1);
        if calls == self.calls_left || calls > self.calls_left && !self.recovers {
            return Err(Error::from(ErrorKind::Interrupted));
        }
        Ok(())
    }
}

impl<T: Read> Read for FailsAt<T> {
    fn read(&mut self, buf: &mut [u8]) -> io::Result<usize> {
        self.count()?;
        self.inner.read(buf)
    }
}

impl<T: Write> Write for FailsAt<T> {
    fn write(&mut self, buf: &[u8]) -> io::Result<usize> {
        self.count()?;
        self.inner.write(buf)
    }

    fn flush(&mut self) -> io::Result<()> {
        self.count()?;
        self.inner.flush()
    }
}
