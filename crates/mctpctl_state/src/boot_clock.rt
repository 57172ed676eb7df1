//! The clock that runs since the system's start, also while it sleeps.

use line_words::read_decimal;
use std::fs;
use std::io::{self, ErrorKind, Read};

/// Where Linux tells how long it has been running: seconds with two digits after the point.
const UPTIME: &str = "/proc/uptime";

/// Where Linux names its last start.
const BOOT_ID: &str = "/proc/sys/kernel/random/boot_id";

/// The most bytes that are read of either.
const MAX_TEXT: u64 = 4_096;

/// A moment, and the start of the system that it counts from.
#[derive(Debug, Drop)]
pub struct BootMoment {
    /// The start's name: the boot ID.
    pub boot: Vec<u8>,
    /// Milliseconds since then, at most ten too few: the system counts hundredths of a second.
    pub milliseconds: u64,
}

/// The present moment.
///
/// # Errors
///
/// Where the system does not tell it.
pub fn boot_moment(rt: &HostRuntime) -> io::Result<BootMoment> {
    let uptime = front_of(rt, UPTIME)?;
    let Some(milliseconds) = milliseconds_in(&uptime) else {
        return Err(ErrorKind::InvalidData.into());
    };
    let mut boot = front_of(rt, BOOT_ID)?;
    if boot.last() == Some(&b'\n') {
        boot.pop();
    }
    if boot.is_empty() || boot.contains(&b' ') {
        return Err(ErrorKind::InvalidData.into());
    }
    Ok(BootMoment { boot, milliseconds })
}

/// The text of a file, or a front of it.
pub(crate) fn front_of(rt: &HostRuntime, name: &str) -> io::Result<Vec<u8>> {
    let file = fs::open(rt, name)?;
    let mut text = Vec::new(rt.alloc());
    file.take(MAX_TEXT).read_to_end(&mut text)?;
    Ok(text)
}

/// The milliseconds that the first word of a text spells, in seconds with two digits after the point.
fn milliseconds_in(text: &[u8]) -> Option<u64> {
    let point = text.iter().position(|byte| *byte == b'.')?;
    let (seconds, rest) = text.split_at_checked(point)?;
    let hundredths = rest.get(1..3)?;
    let whole = read_decimal(seconds)?.checked_mul(1_000)?;
    whole.checked_add(10 * read_decimal(hundredths)?)
}
