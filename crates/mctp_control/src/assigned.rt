//! The numbers that DSP0236 assigns, and the limits that follow from them.

use mctp_packet::BASELINE_UNIT;

/// The message type of MCTP control messages (DSP0239, "MCTP message types").
pub const CONTROL: u8 = 0;

/// The message type of PLDM over MCTP (DSP0239, "MCTP message types").
pub const PLDM: u8 = 1;

/// What Get MCTP Version Support asks for the versions of the base specification with (DSP0236, "Get MCTP Version
/// Support").
pub const BASE_SPECIFICATION: u8 = 0xff;

/// Rq, the highest bit of the byte with the instance ID: set in a request, and not in a response (DSP0236, "MCTP
/// control message format").
pub(crate) const RQ: u8 = 0x80;

/// D, the bit below Rq: set in a datagram, a request that wants no response (DSP0236, "MCTP control message format").
pub(crate) const DATAGRAM: u8 = 0x40;

/// How many instance IDs there are (DSP0236, "MCTP control message fields").
pub const INSTANCE_IDS: u8 = 32;

/// The bytes of a control request before its data: message type, flags with the instance ID, command (DSP0236, "MCTP
/// control message format").
pub const REQUEST_HEADER: usize = 3;

/// The bytes of a control response before its data: a request's, and the completion code.
pub const RESPONSE_HEADER: usize = 4;

/// The most bytes of data in a response: one packet has it whole.
pub const MAX_DATA: usize = BASELINE_UNIT - RESPONSE_HEADER;

/// The command Set Endpoint ID (DSP0236, "Set Endpoint ID").
pub const SET_ENDPOINT_ID: u8 = 0x01;

/// The command Get Endpoint ID (DSP0236, "Get Endpoint ID").
pub const GET_ENDPOINT_ID: u8 = 0x02;

/// The command Get Endpoint UUID (DSP0236, "Get Endpoint UUID").
pub const GET_ENDPOINT_UUID: u8 = 0x03;

/// The command Get MCTP Version Support (DSP0236, "Get MCTP Version Support").
pub const GET_VERSION_SUPPORT: u8 = 0x04;

/// The command Get Message Type Support (DSP0236, "Get Message Type Support").
pub const GET_MESSAGE_TYPE_SUPPORT: u8 = 0x05;

/// The completion code of a command that was carried out (DSP0236, "MCTP control message completion codes").
pub const SUCCESS: u8 = 0x00;

/// The bytes of the message of Set Endpoint ID: its header, the operation, and the endpoint ID (DSP0236, "Set Endpoint
/// ID").
pub const SET_MESSAGE_BYTES: usize = REQUEST_HEADER + 2;

/// The bytes of a UUID (RFC 4122).
pub const UUID_BYTES: usize = 16;

/// The bytes of a version (DSP0236, "Version field encoding").
pub const VERSION_BYTES: usize = 4;

/// The most versions in an answer: one packet has them whole.
pub const MAX_VERSIONS: usize = (MAX_DATA - 1) / VERSION_BYTES;

/// The most bytes of versions in an answer.
pub const MAX_VERSION_BYTES: usize = MAX_VERSIONS * VERSION_BYTES;

/// The most message types in an answer: one packet has them whole.
pub const MAX_MESSAGE_TYPES: usize = MAX_DATA - 1;
