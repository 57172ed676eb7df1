//! A lock between processes: a file beside what it locks, which the system unlocks where its process ends.

use std::fs::{File, OpenOptions, TryLockError};
use std::io;

/// Takes the lock of this name for as long as the file that is returned is kept; `None` where another process has it.
pub(crate) fn take_lock(rt: &HostRuntime, name: &str) -> io::Result<Option<File>> {
    let file = OpenOptions::new().write(true).create(true).open(rt, name)?;
    match file.try_lock() {
        Ok(()) => Ok(Some(file)),
        Err(TryLockError::WouldBlock) => Ok(None),
        Err(TryLockError::Error(error)) => Err(error),
    }
}
