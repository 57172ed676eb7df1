//! How much the fields of a message may hold, and the bytes that they take.

use crate::{REQUEST_HEADER, RESPONSE_HEADER};
use mctp_packet::MAX_MESSAGE_BYTES;

/// The most fields of a composite state sensor or effecter (DSP0248, "compositeSensorCount" and
/// "compositeEffecterCount").
pub const MAX_STATES: usize = 8;

/// The least bytes of version data: one version.
pub const MIN_VERSION_BYTES: usize = 4;

/// The most bytes of version data that one answer carries in this profile.
pub const MAX_VERSION_BYTES: usize = 32;

/// The bytes of one version (DSP0240, "GetPLDMVersion command").
pub const VERSION_BYTES: usize = 4;

/// The bytes of GetPDR's answer data that are not the record's: two handles, the transfer flag, the
/// response count and the record's checksum (DSP0248, "GetPDR command").
pub const PART_FIELDS: usize = 4 + 4 + 1 + 2 + 1;

/// The most bytes of a record that one GetPDR answer carries in this profile: what is left of a
/// message of the greatest length.
pub const MAX_PART_BYTES: usize = MAX_MESSAGE_BYTES - RESPONSE_HEADER - PART_FIELDS;

/// The bytes of SetStateEffecterStates' data where it has all eight fields, whatever their count
/// (DSP0248, "SetStateEffecterStates command").
pub const ALL_FIELDS_FORM: usize = 19;

/// The most bytes of a command's message: SetStateEffecterStates with all eight fields.
pub const MAX_REQUEST_BYTES: usize = REQUEST_HEADER + ALL_FIELDS_FORM;

/// The most bytes of a request's data: what is left of a message of the greatest length.
pub const MAX_REQUEST_DATA: usize = MAX_MESSAGE_BYTES - REQUEST_HEADER;

/// The most bytes of a response's data: what is left of a message of the greatest length.
pub const MAX_RESPONSE_DATA: usize = MAX_MESSAGE_BYTES - RESPONSE_HEADER;

/// The bytes in which GetPLDMTypes' answer lists the PLDM types, a bit each (DSP0240, "GetPLDMTypes
/// command").
pub const TYPES_BYTES: usize = 8;

/// The bytes in which GetPLDMCommands' answer lists the commands of a type, a bit each (DSP0240,
/// "GetPLDMCommands command").
pub const COMMANDS_BYTES: usize = 32;

/// The bytes of a time (DSP0240, "timestamp104").
pub const TIME_BYTES: usize = 13;

/// The transfer operation GetNextPart (DSP0240, "GetPLDMVersion command"; DSP0248, "GetPDR
/// command").
pub const GET_NEXT_PART: u8 = 0;

/// The transfer operation GetFirstPart (DSP0240, "GetPLDMVersion command"; DSP0248, "GetPDR
/// command").
pub const GET_FIRST_PART: u8 = 1;
