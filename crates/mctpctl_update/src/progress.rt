//! What is printed while an image is transferred, on a terminal.

/// How often it is printed, in milliseconds.
const EVERY_MS: u64 = 250;

/// How far the transfer of an image is.
#[derive(Drop)]
pub(crate) struct Progress<'r> {
    rt: &'r HostRuntime,
    /// Whether it is printed.
    is_shown: bool,
    /// When the transfer began, and when it was printed last.
    since: u64,
    shown: u64,
}

impl<'r> Progress<'r> {
    /// Nothing is transferred yet.
    pub(crate) fn new(rt: &'r HostRuntime, is_shown: bool) -> Progress<'r> {
        Progress {
            rt,
            is_shown,
            since: 0,
            shown: 0,
        }
    }

    /// A transfer begins at this moment.
    pub(crate) fn begin(&mut self, now: u64) {
        self.since = now;
        self.shown = now;
    }

    /// At this moment the device has asked for the first `reached` bytes of `size`. It is printed four times a second.
    pub(crate) fn show(&mut self, now: u64, reached: u32, size: u32) {
        if !self.is_shown || size == 0 || now < self.shown.saturating_add(EVERY_MS) {
            return;
        }
        self.shown = now;
        let percent = u64::from(reached).saturating_mul(100) / u64::from(size);
        let speed = speed_of(u64::from(reached), now.saturating_sub(self.since));
        let left = u64::from(size.saturating_sub(reached)).div_ceil(speed.max(1));
        let _ = eprint!(self.rt; "\r{percent:3} %  {speed} bytes/s  {left} s left   ");
    }

    /// The transfer is over: the line that was printed is cleared.
    pub(crate) fn end(&mut self) {
        if self.is_shown && self.shown > self.since {
            let _ = eprint!(self.rt; "\r                                              \r");
        }
        self.shown = self.since;
    }
}

/// How many bytes a second so many bytes in so many milliseconds are.
fn speed_of(bytes: u64, milliseconds: u64) -> u64 {
    bytes.saturating_mul(1_000) / milliseconds.max(1)
}
