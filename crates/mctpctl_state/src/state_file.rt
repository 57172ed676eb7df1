//! The file that keeps when requests were opened, for one line and two endpoints.

ghost use Rattle.std.specs.Prelude.{◌≡◌, IfOk, IfSome, string_bytes};
ghost use Rattle.mctpctl_state.specs.StateFiles.{IsBegun, IsEarlier, IsTextOf};

use crate::boot_clock::{BootMoment, boot_moment, front_of};
use crate::kept::{FORM, Known, Queries, Unknown, kept_before_next, push_state, read_state};
use crate::lock::take_lock;
use mctp_packet::{Eid, MAX_MOMENT};
use pldm_requester::Openings;
use pldm_wire::INSTANCE_IDS;
use std::fs::{self, File};
use std::io::{self, ErrorKind, Write};
use thiserror::Error;

/// By how many milliseconds a reading of the clock may be too early.
const CLOCK_STEP: u64 = 10;

/// How often the clock is read until it has gone on by its step: a second of a fast machine, at least.
const MOST_READINGS: u32 = 100_000;

/// Why a file of states is of no use.
#[derive(Debug, Drop, Error)]
pub enum StateFault {
    /// It was not read, made or written, or the system's clock was not.
    #[error("{0}")]
    File(io::Error),
    /// Another process uses it.
    #[error("in use by another process")]
    InUse,
    /// It keeps something else, and is left as it is.
    #[error("no state of a device")]
    Content,
}

impl From<io::Error> for StateFault {
    fn from(error: io::Error) -> StateFault {
        StateFault::File(error)
    }
}

/// What is known of earlier requests.
#[derive(Debug, Drop)]
pub enum Earlier {
    /// When the last one with each instance ID was opened.
    Known(Known),
    /// Nothing: there is no file yet.
    New,
    /// Nothing, for this reason.
    Unknown(Unknown),
}

/// A file of states, locked as long as this is kept.
#[derive(Debug, Drop)]
pub struct StateFile {
    /// Its name.
    name: String,
    /// Its lock.
    _lock: File,
    /// The start of the system that its moments count from.
    boot: Vec<u8>,
    own: Eid,
    device: Eid,
}

/// A file of states that was begun.
#[derive(Debug, Drop)]
pub struct Begun {
    /// The file.
    pub file: StateFile,
    /// What it says of earlier requests.
    pub earlier: Earlier,
    /// The present moment, in milliseconds since the system's start.
    pub present: u64,
}

impl StateFile {
    /// Locks the file of this name, and reads what it says of requests of `own` for `device`. Where there is none it is
    /// made at the first [`StateFile::keep`].
    ///
    /// # Errors
    ///
    /// `InUse` where another process holds the lock; `Content` where the file begins as no state does; `File` where the
    /// system refuses. The file is then as before, and not locked by this call.
    pub fn begin(rt: &HostRuntime, name: &str, own: Eid, device: Eid) -> Result<Begun, StateFault>
        ensures { IfOk result (IsBegun name.now own device) }
    {
        let lock = format!(in rt.alloc(); "{name}.lock").map_err(|_| no_memory())?;
        match take_lock(rt, &lock)? {
            Some(lock) => begin_locked(rt, name, lock, own, device),
            None => Err(StateFault::InUse),
        }
    }

    /// Keeps what was opened up to `last`, a moment of the openings' clock, the control queries, and that one more request
    /// may be opened. To be called before each opening: what a process that is killed had begun then counts as used.
    ///
    /// # Errors
    ///
    /// Where the file cannot be written. It is then as before: no request may be opened.
    pub fn keep(
        &self,
        rt: &HostRuntime,
        openings: &Openings,
        queries: Queries,
        last: u64,
    ) -> io::Result<()> {
        let now = boot_moment(rt)?;
        if now.boot.as_slice() != self.boot.as_slice() {
            return Err(ErrorKind::InvalidData.into());
        }
        let later = (now.milliseconds.saturating_add(CLOCK_STEP)).saturating_sub(last);
        let Some(text) = text_of(rt, self, openings, queries, later) else {
            return Err(ErrorKind::OutOfMemory.into());
        };
        let written = format!(in rt.alloc(); "{}.new", self.name)?;
        let mut file = fs::create(rt, written.as_str())?;
        file.write_all(&text)?;
        file.flush()?;
        fs::rename(rt, written.as_str(), self.name.as_str())
    }

    /// Its name.
    pub fn name(&self) -> &str
        ensures { result.now ≡ string_bytes self.now.name }
    {
        &self.name
    }
}

/// Reads a file that is locked.
fn begin_locked(
    rt: &HostRuntime,
    name: &str,
    lock: File,
    own: Eid,
    device: Eid,
) -> Result<Begun, StateFault>
    ensures { IfOk result (IsBegun name.now own device) }
{
    let now = moment_past_a_step(rt)?;
    let present = now.milliseconds.min(MAX_MOMENT);
    let earlier = match front_of(rt, name) {
        Ok(text) => read_earlier(rt, &text, &now.boot, own, device, present)?,
        Err(error) if error.kind() == ErrorKind::NotFound => Earlier::New,
        Err(error) => return Err(StateFault::File(error)),
    };
    let file = StateFile {
        name: owned(rt, name)?,
        _lock: lock,
        boot: now.boot,
        own,
        device,
    };
    Ok(Begun {
        file,
        earlier,
        present,
    })
}

/// The present moment, once the clock has gone on by its step. A moment that was kept before is then none to come. Where
/// the clock stands still, it is the first reading.
fn moment_past_a_step(rt: &HostRuntime) -> io::Result<BootMoment> {
    let first = boot_moment(rt)?;
    let past = first.milliseconds.saturating_add(CLOCK_STEP);
    for _ in 0..MOST_READINGS {
        let now = boot_moment(rt)?;
        if now.milliseconds >= past {
            return Ok(now);
        }
    }
    Ok(first)
}

/// What a text says of earlier requests up to now.
fn read_earlier(
    rt: &HostRuntime,
    text: &[u8],
    boot: &[u8],
    own: Eid,
    device: Eid,
    now: u64,
) -> Result<Earlier, StateFault>
    ensures { IfOk result (IsEarlier boot.now own device now) }
{
    if !text.is_empty() && !text.starts_with(FORM) {
        return Err(StateFault::Content);
    }
    let Ok(read) = read_state(rt.alloc(), text) else {
        return Err(no_memory());
    };
    let Some(kept) = read else {
        return Ok(Earlier::Unknown(Unknown::Damaged));
    };
    match kept.known(boot, own.get(), device.get(), now) {
        Ok(known) => Ok(Earlier::Known(known)),
        Err(reason) => Ok(Earlier::Unknown(reason)),
    }
}

/// The text that keeps these openings, and that one more request may be opened. `None` where there is no memory for it,
/// or they are none of a requester.
fn text_of(
    rt: &HostRuntime,
    file: &StateFile,
    openings: &Openings,
    queries: Queries,
    later: u64,
) -> Option<Vec<u8>>
    ensures { IfSome result (λ text. IsTextOf file.now openings.now queries later text.items) }
{
    let most = MAX_MOMENT.checked_sub(later)?;
    if openings.next >= INSTANCE_IDS || !openings.moments.iter().all(|moment| *moment <= most) {
        return None;
    }
    let kept = kept_before_next(
        &file.boot,
        file.own.get(),
        file.device.get(),
        openings,
        queries,
        later,
    );
    let mut text = Vec::new(rt.alloc());
    push_state(&mut text, &kept).ok()?;
    Some(text)
}

/// A text of one's own.
fn owned(rt: &HostRuntime, text: &str) -> Result<String, StateFault>
    ensures { IfOk result (λ own. string_bytes own ≡ text.now) }
{
    String::from_str(rt.alloc(), text).map_err(|_| no_memory())
}

/// That there was no memory.
fn no_memory() -> StateFault {
    StateFault::File(ErrorKind::OutOfMemory.into())
}
