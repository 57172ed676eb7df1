//! Why a call was refused, as the numbers that C is given.

/// A growth of memory was refused.
pub const NO_MEMORY: u8 = 1;

/// The moment is past the last one, or before that of the last call that was accepted.
pub const BAD_MOMENT: u8 = 2;

/// There is nothing behind the handle.
pub const NOTHING_THERE: u8 = 3;

/// The command of another request of the same source and instance ID is pending at the endpoint.
pub const OUT_OF_TURN: u8 = 4;

/// It is the answer to another command.
pub const NOT_ITS_ANSWER: u8 = 5;

/// A number is out of its range.
pub const OUT_OF_RANGE: u8 = 6;

/// There is something behind the handle.
pub const ALREADY_THERE: u8 = 7;

/// The command of this very request is pending at the endpoint.
pub const BEING_PERFORMED: u8 = 8;

/// As many commands are pending at the endpoint as may be.
pub const TOO_MANY_COMMANDS: u8 = 9;

/// No command is pending at the endpoint under this handle.
pub const NOT_PENDING: u8 = 10;

/// The last request with the next tag is still open.
pub const TAG_IN_USE: u8 = 11;

/// The last request with the next instance ID was opened less than twice the keeping time ago.
pub const ID_IN_USE: u8 = 12;

/// The bytes are no request that carries a command.
pub const NO_COMMAND: u8 = 13;

/// As many sources have room for their answers at the endpoint as may have, and this is another one.
pub const TOO_MANY_SOURCES: u8 = 14;

/// As many messages of several packets are open at the endpoint as may be, and this would be one more.
pub const TOO_MANY_OPEN_MESSAGES: u8 = 15;

/// The end has no endpoint ID to ask from.
pub const NO_EID: u8 = 16;

/// Twice the keeping time has not passed yet since the end began to ask.
pub const RESTING: u8 = 17;

/// The firmware answers the command itself.
pub const FIRMWARE_ANSWERS: u8 = 18;
