//! The completion codes by which a command is refused (DSP0240, "Generic PLDM completion codes").

ghost use Rattle.std.specs.Prelude.{◌≡◌, ℕ, ◌↔◌, IsSome, IfSome};
ghost use Rattle.pldm_wire.specs.Codes.{IsCode};

use crate::{
    ERROR, ERROR_INVALID_DATA, ERROR_INVALID_LENGTH, ERROR_INVALID_PLDM_TYPE, ERROR_NOT_READY,
    ERROR_UNSUPPORTED_PLDM_CMD,
};
use std::marker::Model;

/// A completion code other than SUCCESS: why a command was refused, 1 to 255 (DSP0240, "Generic
/// PLDM completion codes"). Codes from 0x80 are the command's own.
#[derive(Clone, Copy, Debug, PartialEq, Eq)]
pub struct Code {
    number: u8,
}

impl Model for Code {
    ghost Value = { ℕ };

    ghost view = { λ code. code.number };

    ghost invariant = { λ code. IsCode code.number };

    ghost inverse = { λ n. record { number = n } };
}

impl Code {
    /// A fault for which there is no other code.
    pub const ERROR: Code = Code { number: ERROR };

    /// A field with a value that it may not have.
    pub const ERROR_INVALID_DATA: Code = Code {
        number: ERROR_INVALID_DATA,
    };

    /// More or fewer bytes of data than the command has.
    pub const ERROR_INVALID_LENGTH: Code = Code {
        number: ERROR_INVALID_LENGTH,
    };

    /// The terminus can't carry out the command now.
    pub const ERROR_NOT_READY: Code = Code {
        number: ERROR_NOT_READY,
    };

    /// A command that the terminus doesn't have.
    pub const ERROR_UNSUPPORTED_PLDM_CMD: Code = Code {
        number: ERROR_UNSUPPORTED_PLDM_CMD,
    };

    /// A PLDM type that the terminus doesn't have.
    pub const ERROR_INVALID_PLDM_TYPE: Code = Code {
        number: ERROR_INVALID_PLDM_TYPE,
    };

    /// The code of this number, where it is 1 to 255.
    pub fn new(number: u8) -> Option<Code>
        ensures some { IsSome result ↔ IsCode number }
        ensures value { IfSome result (λ code. code ≡ number) }
        ensures range { IfSome result IsCode }
    {
        if number == 0 {
            None
        } else {
            Some(Code { number })
        }
    }

    /// Its number, 1 to 255.
    pub fn get(self) -> u8
        ensures value { result ≡ self }
        ensures range { IsCode self }
    {
        self.number
    }
}
