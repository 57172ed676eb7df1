//! Which requests a responding end hands to the device as bytes, in place of refusing them.

ghost use Rattle.std.specs.Prelude.{◌≡◌, false};
ghost use Rattle.pldm_wire.specs.HandingOn.{hands_on};

use crate::{BASE, Kind, PLATFORM};

/// Which requests a responding end hands on as bytes, in place of refusing them with ERROR_INVALID_PLDM_TYPE or
/// ERROR_UNSUPPORTED_PLDM_CMD.
#[derive(Clone, Copy, Debug, PartialEq, Eq)]
pub struct PassThrough {
    /// The PLDM types, 0 to 63, of which each request is handed on: bit t stands for type t (DSP0240, "GetPLDMTypes").
    /// The bits of types 0 and 2 mean nothing.
    pub pldm_types: u64,
    /// Whether requests of types 0 and 2 are handed on where this profile does not read their command.
    pub unknown_commands: bool,
}

impl PassThrough {
    /// No request is handed on.
    pub const NONE: PassThrough = PassThrough {
        pldm_types: 0,
        unknown_commands: false,
    };

    /// Whether a request for this command is handed on.
    pub fn has(self, kind: Kind) -> bool
        ensures { result ≡ hands_on self kind }
    {
        match kind.pldm_type {
            BASE | PLATFORM => self.unknown_commands && kind.name().is_none(),
            pldm_type => self.pldm_types >> pldm_type & 1 == 1,
        }
    }
}
