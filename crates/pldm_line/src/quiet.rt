//! Reads of 0 bytes: one is a tick of a line that is quiet, many at once are its end.

ghost use Rattle.std.specs.Prelude.{◌≡◌};
ghost use Rattle.pldm_line.specs.Turns.{is_end, quiet_after, quiet_from};

use mctp_packet::Moment;

/// How many reads of 0 bytes in a row are the end of the line, where they come fast enough: see [`END_MS`].
pub const END_READS: u8 = 8;

/// [`END_READS`] reads of 0 bytes are the end of the line where they took less than this many milliseconds.
pub const END_MS: u64 = 5;

/// The reads of 0 bytes in a row.
#[derive(Clone, Copy, Debug)]
pub struct Quiet {
    /// The moment before the first of them.
    since: Moment,
    /// How many there are, at most [`END_READS`].
    reads: u8,
}

impl Quiet {
    /// None so far.
    pub fn new(now: Moment) -> Quiet
        ensures { result ≡ quiet_from now }
    {
        Quiet {
            since: now,
            reads: 0,
        }
    }

    /// Takes a read that has ended now.
    pub fn take(&mut self, is_none: bool, now: Moment)
        ensures { self.new ≡ quiet_after is_none self.old now }
    {
        if !is_none || self.since.get() + END_MS <= now.get() {
            *self = Quiet::new(now);
        } else if self.reads < END_READS {
            self.reads += 1;
        }
    }

    /// Whether the line has ended.
    pub fn is_end(&self) -> bool
        ensures { result ≡ is_end self.now }
    {
        self.reads >= END_READS
    }
}
