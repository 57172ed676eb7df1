//! A reader or writer that remembers whether a call through it failed, and whether what was written is flushed.

ghost use Rattle.std.specs.Prelude.{◌≡◌, ◌<◌, true, false, length, OnOk, OnErr};
ghost use Rattle.std.specs.Io.{ReadsAtMost, WritesAtMost};
ghost use Rattle.std.specs.Io.KnownBytes.{Appends, Keeps, ReadConsumes, WriteAppends};
ghost use Rattle.mctpctl_input.specs.Ports.{inner_of, has_failed, is_flushed, FailsIfRefused, StaysIfTaken, WaitsIfTaken};

use std::io;
use std::io::{Error, ErrorKind, Read, Write};

/// Passes reads, writes and flushes on to a reader or writer, unchanged and once each: no call is
/// tried again, whatever its error. (That it is once each is tested; no clause says it.)
#[derive(Drop)]
pub struct Port<T> {
    inner: T,
    failed: bool,
    /// No byte was taken since the last flush.
    flushed: bool,
}

impl<T> Port<T> {
    /// A port over `inner` that has not failed.
    pub fn new(inner: T) -> Port<T>
        ensures holds { inner_of result ≡ inner }
        ensures fresh { has_failed result ≡ false }
        ensures flushed { is_flushed result ≡ true }
    {
        Port {
            inner,
            failed: false,
            flushed: true,
        }
    }

    /// Whether a call has answered an error, or a write of some bytes has taken none.
    pub fn failed(&self) -> bool
        ensures { result ≡ has_failed self.now }
    {
        self.failed
    }

    /// From now on the port has failed.
    fn fail(&mut self)
        ensures inner { inner_of self.new ≡ inner_of self.old }
        ensures failed { has_failed self.new ≡ true }
        ensures flushed { is_flushed self.new ≡ is_flushed self.old }
    {
        self.failed = true;
    }

    /// The reader or writer itself.
    pub fn into_inner(self) -> T
        ensures { result ≡ inner_of self }
    {
        self.inner
    }
}

impl<T: Read> Read for Port<T> {
    ghost remaining = { λ port. T.remaining (inner_of port) };

    /// One read of the reader. An error makes the port failed.
    fn read(&mut self, buf: &mut [u8]) -> io::Result<usize>
        ensures bound { ReadsAtMost result buf.new }
        ensures bytes { ReadConsumes (T.remaining (inner_of self.old)) (T.remaining (inner_of self.new)) result
            buf.new }
        ensures error { OnErr result (has_failed self.new ≡ true) }
        ensures ok { OnOk result (has_failed self.new ≡ has_failed self.old) }
        ensures flushed { is_flushed self.new ≡ is_flushed self.old }
    {
        let result = self.inner.read(buf);
        if result.is_err() {
            self.fail();
        }
        result
    }
}

impl<T: Write> Write for Port<T> {
    ghost contents = { λ port. T.contents (inner_of port) };

    /// One write of the writer. An error makes the port failed, and so does a write of some bytes
    /// that takes none.
    fn write(&mut self, buf: &[u8]) -> io::Result<usize>
        ensures bound { WritesAtMost result buf.now }
        ensures bytes { WriteAppends (T.contents (inner_of self.old)) (T.contents (inner_of self.new)) result buf.now }
        ensures refused { FailsIfRefused result buf.now self.new }
        ensures taken { StaysIfTaken result buf.now self.old self.new }
        ensures waits { WaitsIfTaken result self.old self.new }
    {
        let result = self.inner.write(buf);
        match &result {
            Ok(0) if !buf.is_empty() => self.fail(),
            Ok(0) => {}
            Ok(_) => self.flushed = false,
            Err(_) => self.fail(),
        }
        result
    }

    /// Writes all of `buf`, each byte once. The first error ends it, and so does a write that takes
    /// nothing, which is answered as `WriteZero`.
    fn write_all(&mut self, buf: &[u8]) -> io::Result<()>
        ensures bytes { OnOk result (Appends (T.contents (inner_of self.old)) (T.contents (inner_of self.new))
            buf.now) }
        ensures error { OnErr result (has_failed self.new ≡ true) }
        ensures ok { OnOk result (has_failed self.new ≡ has_failed self.old) }
        ensures waits { OnOk result (0 < length buf.now → is_flushed self.new ≡ false) }
    {
        let mut rest = buf;
        while !rest.is_empty() {
            let count = self.write(rest)?;
            if count == 0 {
                return Err(Error::from(ErrorKind::WriteZero));
            }
            rest = &rest[count..];
        }
        Ok(())
    }

    /// One flush of the writer. An error makes the port failed.
    fn flush(&mut self) -> io::Result<()>
        ensures bytes { Keeps (T.contents (inner_of self.old)) (T.contents (inner_of self.new)) }
        ensures error { OnErr result (has_failed self.new ≡ true) }
        ensures ok { OnOk result (has_failed self.new ≡ has_failed self.old) }
        ensures flushed { OnOk result (is_flushed self.new ≡ true) }
    {
        let result = self.inner.flush();
        match &result {
            Ok(()) => self.flushed = true,
            Err(_) => self.fail(),
        }
        result
    }
}
