//! The kinds of reports, as the numbers that C is given, and those of busy times, as the numbers that C gives.

/// In the busy time each request is refused.
pub const BUSY_ALL: u32 = 0;

/// In the busy time those requests are refused whose command sets something.
pub const BUSY_SETS: u32 = 1;

/// It was refused, and all is as before.
pub const STEP_REFUSED: u8 = 0;

/// The packet was dropped.
pub const STEP_DROPPED: u8 = 1;

/// The packet begins a message of several, or goes on with one.
pub const STEP_PARTIAL: u8 = 2;

/// It is answered.
pub const STEP_ANSWERED: u8 = 3;

/// A command is to be performed.
pub const STEP_PERFORM: u8 = 4;

/// A request is handed on as bytes, and is to be responded to.
pub const STEP_RESPOND: u8 = 5;

/// It is a control message that is answered.
pub const STEP_CONTROL: u8 = 6;

/// The packet was refused, and all is as before.
pub const RECEIVING_REFUSED: u8 = 0;

/// The packet was dropped.
pub const RECEIVING_DROPPED: u8 = 1;

/// The packet begins a message of several, or goes on with one.
pub const RECEIVING_PARTIAL: u8 = 2;

/// The packet completes the answer to a request.
pub const RECEIVING_ANSWERED: u8 = 3;

/// The request is not remembered.
pub const STATUS_UNKNOWN: u8 = 0;

/// The request is open.
pub const STATUS_OPEN: u8 = 1;

/// The request was answered.
pub const STATUS_ANSWERED: u8 = 2;

/// The request was given up.
pub const STATUS_GAVE_UP: u8 = 3;

/// The answering end took the packet, or refused it.
pub const HALF_ANSWERING: u8 = 0;

/// The requester took the packet, or refused it.
pub const HALF_ASKING: u8 = 1;

/// The flash has nothing to do.
pub const FLASH_NONE: u8 = 0;

/// The flash makes room for an image, beside the active one.
pub const FLASH_BEGIN: u8 = 1;

/// The flash stores the bytes of the piece that has just come.
pub const FLASH_STORE: u8 = 2;

/// The flash verifies the stored image.
pub const FLASH_VERIFY: u8 = 3;

/// The flash applies the verified image: at the next activation it is the active one.
pub const FLASH_APPLY: u8 = 4;

/// The flash makes all that was applied active.
pub const FLASH_ACTIVATE: u8 = 5;

/// The flash forgets the image that was begun last.
pub const FLASH_ABANDON: u8 = 6;

/// The flash forgets all that is not active.
pub const FLASH_ABANDON_UPDATE: u8 = 7;

/// There is no machine.
pub const UPDATE_NONE: u8 = 0;

/// No update is under way.
pub const UPDATE_IDLE: u8 = 1;

/// The update agent passes the table of components.
pub const UPDATE_LEARNING: u8 = 2;

/// The table has been passed; no component is transferred.
pub const UPDATE_READY: u8 = 3;

/// The flash makes room for the image.
pub const UPDATE_BEGINNING: u8 = 4;

/// The next piece of the image is asked for.
pub const UPDATE_FETCHING: u8 = 5;

/// The flash stores a piece.
pub const UPDATE_STORING: u8 = 6;

/// The whole image is stored, and the agent is told so.
pub const UPDATE_FETCHED: u8 = 7;

/// The transfer failed, and the agent is told so.
pub const UPDATE_FAILED: u8 = 8;

/// The flash verifies the image.
pub const UPDATE_VERIFYING: u8 = 9;

/// The agent is told that the image is good.
pub const UPDATE_VERIFIED: u8 = 10;

/// The agent is told that the image is not good.
pub const UPDATE_NOT_VERIFIED: u8 = 11;

/// The flash applies the image.
pub const UPDATE_APPLYING: u8 = 12;

/// The agent is told that the image was applied.
pub const UPDATE_APPLIED: u8 = 13;

/// The agent is told that the image was not applied.
pub const UPDATE_NOT_APPLIED: u8 = 14;

/// The flash activates what was applied.
pub const UPDATE_ACTIVATING: u8 = 15;
