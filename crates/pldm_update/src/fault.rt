//! Why data is no command, or no answer, of firmware update.

ghost use Rattle.std.specs.Prelude.{◌≡◌};
ghost use Rattle.pldm_update.specs.CommandReading.{code_of_fault};

use pldm_wire::Code;
use thiserror::Error;

/// Why data is no command, or no answer, of firmware update.
#[derive(Clone, Copy, Debug, PartialEq, Eq, Error)]
pub enum UpdateFault {
    /// The number is of no command that is read here.
    #[error("it is of another command")]
    OtherCommand,
    /// A field is cut short, or bytes are left after the last one.
    #[error("it has the wrong length")]
    Length,
    /// A field has a value that it may not have.
    #[error("it has a field with a wrong value")]
    Value,
}

impl UpdateFault {
    /// The completion code by which a request with this fault is refused: ERROR_UNSUPPORTED_PLDM_CMD,
    /// ERROR_INVALID_LENGTH or ERROR_INVALID_DATA (DSP0240, "Generic PLDM completion codes").
    pub fn code(self) -> Code
        ensures { result ≡ code_of_fault self }
    {
        match self {
            UpdateFault::OtherCommand => Code::ERROR_UNSUPPORTED_PLDM_CMD,
            UpdateFault::Length => Code::ERROR_INVALID_LENGTH,
            UpdateFault::Value => Code::ERROR_INVALID_DATA,
        }
    }
}
