//! Why a device can't be asked on a line, or can't be asked any more.

ghost use Rattle.std.specs.Prelude.{◌≡◌};
ghost use Rattle.pldm_line.specs.AskFaults.{text_of};

use pldm_requester::SettingFault;
use thiserror::Error;

/// Why nothing more is asked on a line.
#[derive(Clone, Copy, Debug, PartialEq, Eq, Error)]
#[error("{}", self.text())]
pub enum AskFault {
    /// The line ended: reads of 0 bytes came at once.
    LineEnded = 1,
    /// The reader failed.
    Read = 2,
    /// The writer failed.
    Write = 3,
    /// The clock gave no reading.
    Clock = 4,
    /// No memory was left.
    Memory = 5,
    /// The input came in more than `u64::MAX` pieces.
    TooMany = 6,
    /// Nobody reads any more what is printed of the answers.
    Unread = 7,
}

impl AskFault {
    /// The fault in words, as it is displayed.
    pub fn text(self) -> &'static str
        ensures { result.now ≡ text_of self }
    {
        match self {
            AskFault::LineEnded => "the line ended",
            AskFault::Read => "read fault",
            AskFault::Write => "write fault",
            AskFault::Clock => "clock fault",
            AskFault::Memory => "out of memory",
            AskFault::TooMany => "too many pieces of input",
            AskFault::Unread => "nobody reads the output",
        }
    }
}

/// Why nothing can be asked on a line.
#[derive(Clone, Copy, Debug, PartialEq, Eq, Error)]
pub enum BeginFault {
    /// The timing or the pace was refused.
    #[error("{0}")]
    Setting(SettingFault),
    /// The line stopped before twice the keeping time had passed.
    #[error("{0}")]
    Line(AskFault),
}
