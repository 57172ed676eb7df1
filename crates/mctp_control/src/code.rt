//! The completion codes by which a control command is refused (DSP0236, "MCTP control message completion codes").

ghost use Rattle.std.specs.Prelude.{◌≡◌, ℕ, ◌↔◌, IsSome, IfSome};
ghost use Rattle.mctp_control.specs.Codes.{IsCode};

use std::marker::Model;

/// A completion code other than SUCCESS: why a command was refused, 1 to 255 (DSP0236, "MCTP control message
/// completion codes"). Codes from 0x80 are the command's own.
#[derive(Clone, Copy, Debug, PartialEq, Eq)]
pub struct CompletionCode {
    number: u8,
}

impl Model for CompletionCode {
    ghost Value = { ℕ };

    ghost view = { λ code. code.number };

    ghost invariant = { λ code. IsCode code.number };

    ghost inverse = { λ n. record { number = n } };
}

impl CompletionCode {
    /// A field with a value that it may not have.
    pub const ERROR_INVALID_DATA: CompletionCode = CompletionCode { number: 0x02 };

    /// More or fewer bytes of data than the command has.
    pub const ERROR_INVALID_LENGTH: CompletionCode = CompletionCode { number: 0x03 };

    /// A command that the endpoint doesn't have.
    pub const ERROR_UNSUPPORTED_CMD: CompletionCode = CompletionCode { number: 0x05 };

    /// A message type that the endpoint doesn't have: the own code of Get MCTP Version Support.
    pub const MESSAGE_TYPE_NOT_SUPPORTED: CompletionCode = CompletionCode { number: 0x80 };

    /// The code of this number, where it is 1 to 255.
    pub fn new(number: u8) -> Option<CompletionCode>
        ensures some { IsSome result ↔ IsCode number }
        ensures value { IfSome result (λ code. code ≡ number) }
        ensures range { IfSome result IsCode }
    {
        if number == 0 {
            None
        } else {
            Some(CompletionCode { number })
        }
    }

    /// Its number, 1 to 255.
    pub fn get(self) -> u8
        ensures value { result ≡ self }
        ensures range { IsCode self }
    {
        self.number
    }
}
