//! Numbers that the standard gives for records.

/// The bytes of a record's header (DSP0248, "Common PDR format").
pub const RECORD_HEADER: usize = 10;

/// The most bytes of a record of these types: a state effecter of eight sets of states of 32 bytes each. GetPDR carries
/// records of up to 65,545 bytes, in parts (DSP0248, "GetPDR command").
pub const MAX_RECORD_BYTES: usize = 305;

/// The most bytes of a record after its header.
pub const MAX_DATA_BYTES: usize = MAX_RECORD_BYTES - RECORD_HEADER;

/// The version of a record's header (DSP0248, "PDRHeaderVersion").
pub const HEADER_VERSION: u8 = 1;

/// The type of a terminus locator record (DSP0248, "PDR type values").
pub const TERMINUS_LOCATOR: u8 = 1;

/// The type of a numeric sensor record (DSP0248, "PDR type values").
pub const NUMERIC_SENSOR: u8 = 2;

/// The type of a state sensor record (DSP0248, "PDR type values").
pub const STATE_SENSOR: u8 = 4;

/// The type of a numeric effecter record (DSP0248, "PDR type values").
pub const NUMERIC_EFFECTER: u8 = 9;

/// The type of a state effecter record (DSP0248, "PDR type values").
pub const STATE_EFFECTER: u8 = 11;

/// The type of a record of a sensor's auxiliary names (DSP0248, "PDR type values").
pub const SENSOR_NAMES: u8 = 6;

/// The type of a record of an effecter's auxiliary names (DSP0248, "PDR type values").
pub const EFFECTER_NAMES: u8 = 13;

/// The type of a record of an entity's auxiliary names (DSP0248, "PDR type values").
pub const ENTITY_NAMES: u8 = 16;

/// The most bytes of a record's auxiliary names: what the longest record of an entity's names has room for.
pub const MAX_NAME_BYTES: usize = 288;

/// No names are shared by several entities (DSP0248, "sharedNameCount").
pub const NO_SHARED_NAMES: u8 = 0;

/// The most bytes in which the possible states of one set are stated (DSP0248, "possibleStatesSize").
pub const MAX_STATE_BYTES: usize = 32;

/// The locator type of an MCTP endpoint ID (DSP0248, "terminusLocatorType").
pub const MCTP_EID: u8 = 1;

/// The bytes of the locator value that is an MCTP endpoint ID (DSP0248, "terminusLocatorValueSize").
pub const EID_BYTES: u8 = 1;
