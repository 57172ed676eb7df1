//! A writer that gives lines their colours.

ghost use Rattle.std.specs.Prelude.{◌≡◌, []};

use crate::marks::Marks;
use crate::paint::push_painted;
use std::alloc::Global;
use std::io::{self, ErrorKind, Write};

/// Writes what it is given line by line, each in its colour. Without marks all goes on as it is.
#[derive(Drop)]
pub struct Colouring<W> {
    alloc: Global,
    inner: W,
    marks: Option<Marks>,
    /// The line that has not ended.
    line: Vec<u8>,
}

impl<W: Write> Colouring<W> {
    /// Colours by these marks what goes to `inner`.
    pub fn new(alloc: Global, inner: W, marks: Option<Marks>) -> Colouring<W>
        ensures inner { result.inner ≡ inner }
        ensures marks { result.marks ≡ marks }
        ensures line { result.line.items ≡ [] }
    {
        Colouring {
            alloc: alloc,
            inner,
            marks,
            line: Vec::new(alloc),
        }
    }

    /// Takes a byte; at the end of a line that is written.
    fn take(&mut self, byte: u8) -> io::Result<()> {
        if byte == b'\n' {
            return self.end_line();
        }
        match self.line.push(byte) {
            Ok(()) => Ok(()),
            Err(_) => Err(ErrorKind::OutOfMemory.into()),
        }
    }

    /// Writes the line in its colour.
    fn end_line(&mut self) -> io::Result<()> {
        let Some(marks) = &mut self.marks else {
            return Ok(());
        };
        let mut text = Vec::new(self.alloc);
        let Ok(colour) = marks.colour(&self.line) else {
            return Err(ErrorKind::OutOfMemory.into());
        };
        if push_painted(colour, &self.line, &mut text).is_err() || text.push(b'\n').is_err() {
            return Err(ErrorKind::OutOfMemory.into());
        }
        self.line.clear();
        self.inner.write_all(&text)
    }
}

impl<W: Write> Write for Colouring<W> {
    /// Takes all bytes.
    fn write(&mut self, buf: &[u8]) -> io::Result<usize> {
        if self.marks.is_none() {
            return self.inner.write(buf);
        }
        for byte in buf {
            self.take(*byte)?;
        }
        Ok(buf.len())
    }

    /// Writes a line that has not ended, too.
    fn flush(&mut self) -> io::Result<()> {
        if !self.line.is_empty() {
            self.inner.write_all(&self.line)?;
            self.line.clear();
        }
        self.inner.flush()
    }
}
