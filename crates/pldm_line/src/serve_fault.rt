//! Why `mctpctl serve` stops: its line, its clock or its memory failed.

ghost use Rattle.std.specs.Prelude.{◌≡◌};
ghost use Rattle.pldm_line.specs.ServeFaults.{text_of};

use thiserror::Error;

/// Why a line is served no longer.
#[derive(Clone, Copy, Debug, PartialEq, Eq, Error)]
#[error("{}", self.text())]
pub enum ServeFault {
    /// The reader failed.
    Read = 1,
    /// The writer failed.
    Write = 2,
    /// The clock gave no reading.
    Clock = 3,
    /// No memory was left.
    Memory = 4,
    /// The input came in more than `u64::MAX` pieces.
    TooMany = 5,
}

impl ServeFault {
    /// The fault in words, as it is displayed.
    pub fn text(self) -> &'static str
        ensures { result.now ≡ text_of self }
    {
        match self {
            ServeFault::Read => "read fault",
            ServeFault::Write => "write fault",
            ServeFault::Clock => "clock fault",
            ServeFault::Memory => "out of memory",
            ServeFault::TooMany => "too many pieces of input",
        }
    }
}
