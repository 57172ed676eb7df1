//! What can be wrong with a device description.

ghost use Rattle.std.specs.Prelude.{◌≡◌};
ghost use Rattle.mctp_packet.specs.Memories.{out_of_memory};
ghost use Rattle.pldm_device.specs.FileFaults.{name_of_file_fault, number_of_file_fault};

use mctp_packet::Memory;
use std::alloc::{AllocError, AllocFailed};
use thiserror::Error;

/// Why a device description was refused.
#[derive(Clone, Copy, Debug, PartialEq, Eq, Error)]
#[error("{}", self.name())]
pub enum FileFault {
    /// The text is not UTF-8, or no TOML.
    Toml,
    /// A key that must be there is missing.
    MissingKey,
    /// A key has a value of another TOML type than its own.
    WrongKind,
    /// A value is outside its range.
    OutOfRange,
    /// An ID was given to an earlier sensor or an earlier effecter, or a record handle to an earlier
    /// record.
    Duplicate,
    /// A text is no hex: it has an odd length, or a character that is no hex digit.
    BadHex,
    /// The bytes are no platform data record.
    BadRecord,
    /// No memory was left.
    Memory(Memory),
}

impl FileFault {
    /// The fault's number, as the profile counts them.
    pub fn number(self) -> u8
        ensures { result ≡ number_of_file_fault self }
    {
        match self {
            FileFault::Toml => 1,
            FileFault::MissingKey => 2,
            FileFault::WrongKind => 3,
            FileFault::OutOfRange => 4,
            FileFault::Duplicate => 5,
            FileFault::BadHex => 6,
            FileFault::BadRecord => 7,
            FileFault::Memory(_) => 8,
        }
    }

    /// The fault's name, as it is spelled in this type.
    pub fn name(self) -> &'static str
        ensures { result.now ≡ name_of_file_fault self }
    {
        match self {
            FileFault::Toml => "Toml",
            FileFault::MissingKey => "MissingKey",
            FileFault::WrongKind => "WrongKind",
            FileFault::OutOfRange => "OutOfRange",
            FileFault::Duplicate => "Duplicate",
            FileFault::BadHex => "BadHex",
            FileFault::BadRecord => "BadRecord",
            FileFault::Memory(_) => "Memory",
        }
    }
}

impl From<Memory> for FileFault {
    ghost use Rattle.pldm_device.specs.declared.description_fault.FileFault.TheVariants as faults;

    ghost from_gives = { λ memory fault. fault ≡ faults.Memory memory };

    fn from(memory: Memory) -> FileFault {
        FileFault::Memory(memory)
    }
}

impl<T: Drop> From<AllocFailed<T>> for FileFault {
    ghost use Rattle.pldm_device.specs.declared.description_fault.FileFault.TheVariants as faults;

    ghost from_gives = { λ _ fault. fault ≡ faults.Memory out_of_memory };

    fn from(refused: AllocFailed<T>) -> FileFault {
        FileFault::Memory(refused.into())
    }
}

impl From<AllocError> for FileFault {
    ghost use Rattle.pldm_device.specs.declared.description_fault.FileFault.TheVariants as faults;

    ghost from_gives = { λ _ fault. fault ≡ faults.Memory out_of_memory };

    fn from(refused: AllocError) -> FileFault {
        FileFault::Memory(refused.into())
    }
}
