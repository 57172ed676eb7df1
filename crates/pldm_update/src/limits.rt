//! How much the fields of a message of firmware update may hold.

use pldm_wire::MAX_RESPONSE_DATA;

/// The most bytes of a version string: one byte states its length (DSP0267, "String types").
pub const MAX_TEXT_BYTES: usize = 255;

/// The bytes of the date of a release: the digits of a year, a month and a day (DSP0267, "GetFirmwareParameters
/// command").
pub const RELEASE_BYTES: usize = 8;

/// The most bytes of a piece of an image that one answer carries in this profile: what is left of a message of the
/// greatest length after the header and the completion code (DSP0267, "RequestFirmwareData command").
pub const MAX_PIECE_BYTES: usize = MAX_RESPONSE_DATA;

/// The most bytes of the data of a command or an answer of firmware update: a whole piece.
pub const MAX_UPDATE_DATA: usize = MAX_PIECE_BYTES;
