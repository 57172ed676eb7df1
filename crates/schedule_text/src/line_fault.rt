//! Why a schedule was refused.

ghost use Rattle.std.specs.Prelude.{◌≡◌};
ghost use Rattle.mctp_packet.specs.Memories.{out_of_memory};
ghost use Rattle.schedule_text.specs.LineFaults.{name_of_fault, number_of_fault};

use mctp_packet::Memory;
use std::alloc::AllocFailed;
use thiserror::Error;

/// The first line of a schedule that is refused, and why.
#[derive(Clone, Copy, Debug, PartialEq, Eq, Error)]
#[error("line {}: {}", self.line, self.kind)]
pub struct LineFault {
    /// The line's number, counted from 1.
    pub line: u64,
    /// Why it is refused.
    pub kind: LineFaultKind,
}

/// Why a line of a schedule is refused. Of several faults of one line the first in this order is
/// returned, but out of memory may come at any line.
#[derive(Clone, Copy, Debug, PartialEq, Eq, Error)]
#[error("{}", self.name())]
pub enum LineFaultKind {
    /// A fixed word is another one, or the count of words is wrong.
    Words,
    /// A number is no decimal number, or is outside its range.
    Number,
    /// The moment is before that of an earlier line.
    BackInTime,
    /// No earlier line is of the requester at this endpoint ID.
    NoSuchRequester,
    /// An earlier line is of the requester at this endpoint ID.
    SameRequester,
    /// No memory was left.
    Memory(Memory),
}

impl LineFaultKind {
    /// The fault's number.
    pub fn number(self) -> u8
        ensures { result ≡ number_of_fault self }
    {
        match self {
            LineFaultKind::Words => 1,
            LineFaultKind::Number => 2,
            LineFaultKind::BackInTime => 3,
            LineFaultKind::NoSuchRequester => 4,
            LineFaultKind::SameRequester => 5,
            LineFaultKind::Memory(_) => 6,
        }
    }

    /// The fault's name, as it is spelled in this type.
    pub fn name(self) -> &'static str
        ensures { result.now ≡ name_of_fault self }
    {
        match self {
            LineFaultKind::Words => "Words",
            LineFaultKind::Number => "Number",
            LineFaultKind::BackInTime => "BackInTime",
            LineFaultKind::NoSuchRequester => "NoSuchRequester",
            LineFaultKind::SameRequester => "SameRequester",
            LineFaultKind::Memory(_) => "Memory",
        }
    }
}

impl From<Memory> for LineFaultKind {
    ghost use Rattle.schedule_text.specs.declared.line_fault.LineFaultKind.TheVariants as faults;

    ghost from_gives = { λ memory fault. fault ≡ faults.Memory memory };

    fn from(memory: Memory) -> LineFaultKind {
        LineFaultKind::Memory(memory)
    }
}

impl<T: Drop> From<AllocFailed<T>> for LineFaultKind {
    ghost use Rattle.schedule_text.specs.declared.line_fault.LineFaultKind.TheVariants as faults;

    ghost from_gives = { λ _ fault. fault ≡ faults.Memory out_of_memory };

    fn from(refused: AllocFailed<T>) -> LineFaultKind {
        LineFaultKind::Memory(refused.into())
    }
}
