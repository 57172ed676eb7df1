//! Numbers that the standards give for records and their transfer.

/// The most records of a repository; the number is this profile's.
pub const MAX_RECORDS: usize = 1_000;

/// The bytes of a record's header (DSP0248, "Common PDR format").
pub const RECORD_HEADER: usize = 10;

/// The most bytes of a record: its header, and as much data as the header can count.
pub const MAX_RECORD_BYTES: usize = 65_545;

/// The bytes of a record's header up to the end of its change number (DSP0248, "Common PDR format").
pub const CHANGE_NUMBER_END: usize = 8;

/// The version of a record's header (DSP0248, "PDRHeaderVersion").
pub const HEADER_VERSION: u8 = 1;

/// The record handle that no record has, as the next one after the last record (DSP0248, "GetPDR
/// command").
pub const NO_RECORD: u32 = 0;

/// The record handle that asks for the first record (DSP0248, "GetPDR command").
pub const FIRST_RECORD: u32 = 0;

/// The state `available` of a repository (DSP0248, "GetPDRRepositoryInfo command").
pub const REPOSITORY_AVAILABLE: u8 = 0;

/// No timeout between the parts of a record (DSP0248, "GetPDRRepositoryInfo command").
pub const NO_TRANSFER_TIMEOUT: u8 = 0;
