//! A reader and a writer of a line between which and the line faults are made. Delays are waited for here, so a frame
//! that is late holds up those after it.

ghost use Rattle.std.specs.Prelude.{◌≡◌, ◌≤◌, length, []};
ghost use Rattle.line_faults.specs.Faulty.{begun};

use crate::fate::LineFaults;
use crate::faulty::{FaultyFrames, FaultyPacket};
use mctp_serial::{FrameBytes, frame};
use std::io::{self, ErrorKind, Read, Write};
use std::thread;
use std::time::{Clock, Duration};

/// How many bytes are asked for at once.
const PIECE: usize = 4_096;

/// The frame of a packet.
fn framed(packet: &[u8]) -> FrameBytes {
    match frame(packet) {
        Some(bytes) => bytes,
        None => FrameBytes::new(),
    }
}

/// Waits until a frame comes or goes that is late.
fn wait<C: Clock>(clock: &C, passed: &FaultyPacket) {
    if passed.fate.copies > 0 && passed.fate.delay > 0 {
        thread::sleep(clock, Duration::from_millis(passed.fate.delay));
    }
}

/// Reads the frames that come in, with faults made among them. What is no frame does not come.
#[derive(Drop)]
pub struct FaultyReader<'c, C, R> {
    clock: &'c C,
    inner: R,
    frames: FaultyFrames,
    /// What was read, up to `end`; of that so much was taken.
    room: [u8; PIECE],
    end: usize,
    taken: usize,
    /// The frame that comes now; of that so much has come.
    frame: FrameBytes,
    given: usize,
    /// How often it comes again after that.
    again: u8,
}

impl<'c, C: Clock, R: Read> FaultyReader<'c, C, R> {
    /// A reader of frames that `inner` reads.
    pub fn new(clock: &'c C, faults: LineFaults, inner: R) -> FaultyReader<'c, C, R>
        ensures inner { result.inner ≡ inner }
        ensures frames { result.frames ≡ begun faults 0 }
        ensures none_read { (result.end ≡ 0) × (result.taken ≡ 0) }
        ensures none_comes { (result.frame.items ≡ []) × (result.given ≡ 0) × (result.again ≡ 0) }
    {
        FaultyReader {
            clock,
            inner,
            frames: FaultyFrames::coming_in(faults),
            room: [0; PIECE],
            end: 0,
            taken: 0,
            frame: FrameBytes::new(),
            given: 0,
            again: 0,
        }
    }

    /// Gives bytes of the frame that comes now, and says how many; none where all of its copies have come.
    fn give(&mut self, buf: &mut [u8]) -> usize
        ensures { result ≤ length buf.new }
    {
        if self.given >= self.frame.len() && self.again > 0 {
            self.again -= 1;
            self.given = 0;
        }
        let Some(rest) = self.frame.get(self.given..) else {
            return 0;
        };
        let count = rest.len().min(buf.len());
        buf[..count].copy_from_slice(&rest[..count]);
        self.given += count;
        count
    }

    /// The next byte that was read; `None` at the end of the input.
    fn next_byte(&mut self) -> io::Result<Option<u8>> {
        if self.taken >= self.end {
            self.end = self.inner.read(&mut self.room)?;
            self.taken = 0;
            if self.end == 0 {
                return Ok(None);
            }
        }
        let byte = self.room.get(self.taken).copied();
        self.taken += 1;
        Ok(byte)
    }

    /// Takes a byte. Where it ends a frame, that comes next, as often as its fate says.
    fn take(&mut self, byte: u8) {
        let Some(passed) = self.frames.take(byte) else {
            return;
        };
        wait(self.clock, &passed);
        if let Some(again) = passed.fate.copies.checked_sub(1) {
            self.frame = framed(&passed.packet);
            self.given = 0;
            self.again = again;
        }
    }
}

impl<C: Clock, R: Read> Read for FaultyReader<'_, C, R> {
    /// Gives bytes of the frames that come, in as many reads of the inner one as it takes.
    fn read(&mut self, buf: &mut [u8]) -> io::Result<usize> {
        if buf.is_empty() {
            return Ok(0);
        }
        for _ in 0..u64::MAX {
            match self.give(buf) {
                0 => {}
                count => return Ok(count),
            }
            match self.next_byte()? {
                Some(byte) => self.take(byte),
                None => return Ok(0),
            }
        }
        Err(ErrorKind::Other.into())
    }
}

/// Writes the frames that go out, with faults made among them. What is no frame does not go out.
#[derive(Drop)]
pub struct FaultyWriter<'c, C, W> {
    clock: &'c C,
    inner: W,
    frames: FaultyFrames,
}

impl<'c, C: Clock, W: Write> FaultyWriter<'c, C, W> {
    /// A writer of frames that `inner` writes.
    pub fn new(clock: &'c C, faults: LineFaults, inner: W) -> FaultyWriter<'c, C, W>
        ensures inner { result.inner ≡ inner }
        ensures frames { result.frames ≡ begun faults 1 }
    {
        FaultyWriter {
            clock,
            inner,
            frames: FaultyFrames::going_out(faults),
        }
    }

    /// Writes a frame, as often as its fate says.
    fn pass(&mut self, passed: &FaultyPacket) -> io::Result<()> {
        wait(self.clock, passed);
        for _ in 0..passed.fate.copies {
            self.inner.write_all(&framed(&passed.packet))?;
            self.inner.flush()?;
        }
        Ok(())
    }
}

impl<C: Clock, W: Write> Write for FaultyWriter<'_, C, W> {
    /// Takes all bytes. Each frame that ends in them is written.
    fn write(&mut self, buf: &[u8]) -> io::Result<usize> {
        for byte in buf {
            if let Some(passed) = self.frames.take(*byte) {
                self.pass(&passed)?;
            }
        }
        Ok(buf.len())
    }

    fn flush(&mut self) -> io::Result<()> {
        self.inner.flush()
    }
}
