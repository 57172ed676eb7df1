//! The line of `ask`, `walk` and `watch`: a terminal, held against other programs. And what is said of a line that fails
//! or is quiet.

ghost use Rattle.std.specs.Prelude.{◌≡◌};

use crate::statuses::FAILED;
use pldm_line::AskFault;
use std::fs::{self, File, OpenOptions, TryLockError};
use std::io::{self, Error, ErrorKind, IsTerminal, Read, Stdin};
use std::os::unix::fs::FileTypeExt;
use std::thread;
use std::time::{Duration, Instant};

/// The name under which a program opens its own standard input once more.
const STANDARD_INPUT: &str = "/proc/self/fd/0";

/// The error of a terminal whose other end is gone: EIO.
const HUNG_UP: i32 = 5;

/// For how many milliseconds more than it has to the line is quiet, before that is said.
const PATIENCE_MS: u64 = 1_000;

/// How many reads of nothing in a row are each followed by a short nap.
const SHORT_NAPS: u32 = 100;

/// The length of a short nap, in milliseconds: [`pldm_line::END_READS`] of them are no end of the line.
const SHORT_NAP_MS: u64 = 1;

/// The length of each later nap, in milliseconds.
const LONG_NAP_MS: u64 = 10;

/// A line that is asked on.
#[derive(Drop)]
pub struct Line<'p> {
    /// What it is called; nothing where it is standard input and output.
    pub path: Option<&'p str>,
    /// The same terminal, where it is one: it is asked whether it has hung up.
    pub probe: Option<File>,
}

impl Line<'_> {
    /// Whether it was a terminal, and is none any more.
    fn has_hung_up(&self) -> bool {
        match &self.probe {
            Some(file) => !file.is_terminal(),
            None => false,
        }
    }

    /// Says why nothing more was asked, and returns the exit status. A write to a terminal that has hung up is its end.
    /// Where nobody reads what is printed, as behind `head`, nothing is said.
    pub fn failed(&self, rt: &HostRuntime, fault: AskFault) -> u8
        ensures { result ≡ FAILED }
    {
        let said = match fault {
            AskFault::Unread => return FAILED,
            AskFault::Write if self.has_hung_up() => AskFault::LineEnded,
            fault => fault,
        };
        if let Some(path) = self.path {
            let _ = eprintln!(rt; "mctpctl: {path}: {said}");
        } else {
            let _ = eprintln!(rt; "mctpctl: {said}");
        }
        FAILED
    }
}

/// Reads a line. Where nothing has come at all for long, it says so once, on a terminal. The reads of a terminal have to
/// end where nothing comes, as after `stty min 0 time 0`, which ends them at once, or `time 1`; a nap follows.
#[derive(Drop)]
pub struct LineReader<'r, R> {
    rt: &'r HostRuntime,
    inner: R,
    path: &'r str,
    /// When it was opened, by a clock that can be read.
    since: Option<Instant>,
    /// How long after it was opened that is said, where it was not said and nothing has come.
    patience: Option<Duration>,
    /// How many reads in a row gave nothing.
    idle: u32,
}

/// The terminal of this name, opened for reading and for writing, where no other program holds it. None is made.
pub fn open_line<'r>(
    rt: &'r HostRuntime,
    path: &'r str,
    wait: u64,
) -> io::Result<(LineReader<'r, File>, File)> {
    if !fs::metadata(rt, path)?.file_type().is_char_device() {
        return Err(no_terminal());
    }
    let file = fs::open(rt, path)?;
    if !file.is_terminal() {
        return Err(no_terminal());
    }
    hold(&file)?;
    let writer = OpenOptions::new().write(true).open(rt, path)?;
    Ok((reader_of(rt, file, path, wait), writer))
}

/// Standard input, opened once more.
pub fn open_input<'r>(rt: &'r HostRuntime, wait: u64) -> io::Result<LineReader<'r, File>> {
    let file = fs::open(rt, STANDARD_INPUT)?;
    Ok(reader_of(rt, file, STANDARD_INPUT, wait))
}

/// Standard input as it was opened, where the system does not let it be opened once more: it has no `/proc`.
pub fn plain_input<'r>(rt: &'r HostRuntime, wait: u64) -> LineReader<'r, Stdin> {
    reader_of(rt, rt.stdin(), STANDARD_INPUT, wait)
}

impl LineReader<'_, File> {
    /// The terminal that is read, if it is one.
    pub fn probe(&self) -> Option<File> {
        if !self.inner.is_terminal() {
            return None;
        }
        self.inner.try_clone().ok()
    }
}

impl<R: IsTerminal> LineReader<'_, R> {
    /// Says what is waited for, where nothing has come for long.
    fn say_waiting(&mut self) {
        let (Some(patience), Some(since)) = (self.patience, self.since) else {
            return;
        };
        let Ok(passed) = since.elapsed(self.rt) else {
            return;
        };
        if passed < patience {
            return;
        }
        self.patience = None;
        let path = self.path;
        if self.rt.stderr().is_terminal() {
            let _ = eprintln!(self.rt;
                "mctpctl: waiting for an answer on {path}; a terminal has to be raw: stty -F {path} raw -echo min 0 time 0"
            );
        }
    }

    /// Naps after a read of nothing: a terminal may be set so that each one ends at once. What is no terminal, or none
    /// any more since it hung up, is read again without a pause.
    fn nap(&mut self) {
        let span = if self.idle < SHORT_NAPS {
            SHORT_NAP_MS
        } else {
            LONG_NAP_MS
        };
        self.idle = self.idle.saturating_add(1);
        if self.inner.is_terminal() {
            thread::sleep(self.rt, Duration::from_millis(span));
        }
    }
}

impl<R: Read + IsTerminal> Read for LineReader<'_, R> {
    /// What has come; nothing where a read ended before something came, and of a line that has hung up.
    fn read(&mut self, buf: &mut [u8]) -> io::Result<usize> {
        match self.inner.read(buf) {
            Ok(0) => {
                self.say_waiting();
                self.nap();
                Ok(0)
            }
            Ok(count) => {
                self.patience = None;
                self.idle = 0;
                Ok(count)
            }
            Err(error) if has_hung_up(&error) => Ok(0),
            Err(error) => Err(error),
        }
    }
}

/// Reads as the inner reader does. A terminal that has hung up ends.
#[derive(Drop)]
pub struct EndingReader<R> {
    inner: R,
}

impl<R> EndingReader<R> {
    /// A reader over `inner`.
    pub fn new(inner: R) -> EndingReader<R> {
        EndingReader { inner }
    }
}

impl<R: Read> Read for EndingReader<R> {
    fn read(&mut self, buf: &mut [u8]) -> io::Result<usize> {
        match self.inner.read(buf) {
            Err(error) if has_hung_up(&error) => Ok(0),
            result => result,
        }
    }
}

/// The name of the terminal that standard input is, if it is one.
pub fn input_name(rt: &HostRuntime) -> Option<String> {
    if !rt.stdin().is_terminal() {
        return None;
    }
    let path = fs::read_link(rt, STANDARD_INPUT).ok()?;
    String::from_str(rt.alloc(), path.as_path().to_str()?).ok()
}

/// A reader of a line over `inner`.
fn reader_of<'r, R>(rt: &'r HostRuntime, inner: R, path: &'r str, wait: u64) -> LineReader<'r, R> {
    LineReader {
        rt,
        inner,
        path,
        since: Instant::now(rt).ok(),
        patience: Some(Duration::from_millis(wait.saturating_add(PATIENCE_MS))),
        idle: 0,
    }
}

/// Holds a terminal, where no other program does, by the lock that others take too.
fn hold(file: &File) -> io::Result<()> {
    match file.try_lock() {
        Ok(()) => Ok(()),
        Err(TryLockError::WouldBlock) => Err(Error::new(
            ErrorKind::ResourceBusy,
            "in use by another program",
        )),
        Err(TryLockError::Error(error)) => Err(error),
    }
}

/// Why a file is no line.
fn no_terminal() -> Error {
    Error::new(ErrorKind::InvalidInput, "not a terminal")
}

/// Whether a terminal has hung up.
fn has_hung_up(error: &Error) -> bool {
    error.raw_os_error() == Some(HUNG_UP)
}
