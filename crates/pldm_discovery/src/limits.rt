//! The most commands that a walk asks, and the numbers that its commands have in common.

use pldm_records::{MAX_RECORD_BYTES, MAX_RECORDS};

/// The most PLDM types: GetPLDMTypes' answer has a bit for each (DSP0240, "GetPLDMTypes command").
pub const MAX_TYPES: u8 = 64;

/// The most commands of a walk: the terminus ID, the types, the versions and the commands of each, the repository, each
/// record in parts of one byte and a part too many, and a reading of each.
pub const MAX_COMMANDS: usize = 2
    + 2 * MAX_TYPES as usize
    + 1
    + MAX_RECORDS * (MAX_RECORD_BYTES + 1)
    + MAX_RECORDS;

/// The data transfer handle of a request for the first part, which the device does not look at (DSP0240,
/// "GetPLDMVersion command").
pub const FIRST_TRANSFER: u32 = 0;

/// No event state is rearmed (DSP0248, "rearmEventState" and "sensorRearm").
pub const NO_REARM: u8 = 0;

/// The record handle that asks for the first record (DSP0248, "GetPDR command").
pub const FIRST_RECORD: u32 = 0;

/// The record handle that no record has, as the next one after the last record (DSP0248, "GetPDR command").
pub const NO_RECORD: u32 = 0;
