//! A reader that keeps a copy of what was read through it.

ghost use Rattle.std.specs.Prelude.{◌≡◌, ◌-◌, ◌↔◌, ◌++◌, [], false, true, IfOk, IfSome, IsSome, OnErr, length, take};
ghost use Rattle.std.specs.Io.{ReadsAtMost};
ghost use Rattle.std.specs.Io.KnownBytes.{ReadConsumes};
ghost use Rattle.mctpctl_input.specs.KeptBytes.{has_lost, inner_of, kept_of};
ghost use Rattle.mctpctl_input.specs.declared.limits.TheConstants.{MAX_INPUT};

use crate::limits::MAX_INPUT;
use std::alloc::Global;
use std::io;
use std::io::Read;

/// Passes reads on to a reader, unchanged and once each (which is tested; no clause says it), and
/// keeps a copy of the first [`MAX_INPUT`] bytes that came. Where a growth of the copy is refused, the
/// reads go on and the copy ends there.
#[derive(Drop)]
pub struct TeeReader<R> {
    inner: R,
    kept: Vec<u8>,
    /// A growth of the copy was refused.
    lost: bool,
}

impl<R> TeeReader<R> {
    /// A reader over `inner` that has kept nothing yet.
    pub fn new(alloc: Global, inner: R) -> TeeReader<R>
        ensures holds { inner_of result ≡ inner }
        ensures kept { kept_of result ≡ [] }
        ensures lost { has_lost result ≡ false }
    {
        TeeReader {
            inner,
            kept: Vec::new(alloc),
            lost: false,
        }
    }

    /// What was kept; `None` where a growth of it was refused.
    pub fn kept(&self) -> Option<&[u8]>
        ensures kept { IfSome result (λ bytes. bytes.now ≡ kept_of self.now) }
        ensures lost { IsSome result ↔ (has_lost self.now ≡ false) }
    {
        if self.lost { None } else { Some(&self.kept) }
    }

    /// Keeps bytes that were read, up to the limit.
    fn keep(&mut self, bytes: &[u8])
        ensures inner { inner_of self.new ≡ inner_of self.old }
        ensures kept { has_lost self.new ≡ false
            → kept_of self.new ≡ kept_of self.old ++ take (MAX_INPUT - length (kept_of self.old)) bytes.now }
        ensures lost { has_lost self.old ≡ true → has_lost self.new ≡ true }
    {
        let room = MAX_INPUT.saturating_sub(self.kept.len());
        let count = bytes.len().min(room);
        if self.kept.extend_from_slice(&bytes[..count]).is_err() {
            self.lost = true;
        }
    }
}

impl<R: Read> Read for TeeReader<R> {
    ghost remaining = { λ keeping. R.remaining (inner_of keeping) };

    /// One read of the reader. What it gave is kept; at an error nothing is.
    fn read(&mut self, buf: &mut [u8]) -> io::Result<usize>
        ensures bound { ReadsAtMost result buf.new }
        ensures bytes { ReadConsumes (R.remaining (inner_of self.old)) (R.remaining (inner_of self.new)) result
            buf.new }
        ensures kept { IfOk result (λ n. has_lost self.new ≡ false
            → kept_of self.new ≡ kept_of self.old ++ take (MAX_INPUT - length (kept_of self.old)) (take n buf.new)) }
        ensures error { OnErr result (kept_of self.new ≡ kept_of self.old) }
    {
        let count = self.inner.read(buf)?;
        self.keep(&buf[..count]);
        Ok(count)
    }
}
