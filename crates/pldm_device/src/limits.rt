//! Numbers that the profile and the standards give for a description.

/// The most entries of a list of a description.
pub const MAX_ENTRIES: usize = 1_000;

/// The greatest ID of a sensor or an effecter.
pub const MAX_ID: u32 = 65_535;

/// The greatest number of a byte, as states are.
pub const MAX_BYTE: u32 = 255;

/// The most states that a field of a state effecter can take.
pub const MAX_ALLOWED: usize = 256;

/// The greatest state of a numeric sensor: UpperFatal (DSP0248, "presentState").
pub const MAX_SENSOR_STATE: u32 = 10;

/// The greatest terminus ID (DSP0240, "SetTID").
pub const MAX_TID: u32 = 254;

/// The bytes of a UUID (DSP0236, "Get Endpoint UUID").
pub const UUID_BYTES: usize = 16;

/// The bytes of a version in a control message (DSP0236, "Version field encoding").
pub const VERSION_BYTES: usize = 4;

/// The most characters of a name: its 256 bytes in UTF-16 have its end too (DSP0240, "PLDM data types", strUTF-16BE).
pub const MAX_NAME: usize = 127;

/// The greatest number of two bytes, as those of an entity and a state set are.
pub const MAX_NUMBER: u32 = 65_535;

/// The handle by which the made records name the terminus; the number is this profile's.
pub const TERMINUS_HANDLE: u16 = 1;

/// The bits of the real32 1.
pub const ONE: u32 = 0x3f80_0000;

/// The most versions that are sent in one part (DSP0240, "GetPLDMVersion command").
pub const MAX_VERSIONS: usize = 8;

/// The most of them that leave room for their checksum after them.
pub const MAX_CHECKED_VERSIONS: usize = 7;

/// The most bytes of versions and their checksum (DSP0240, "GetPLDMVersion command").
pub const CHECKED_VERSION_BYTES: usize = 36;
