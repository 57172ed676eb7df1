//! The exit statuses of the program.

/// The exit status where each command has an answer with the code SUCCESS.
pub const DONE: u8 = 0;

/// That where an answer has another code.
pub const REFUSED: u8 = 1;

/// That of a command line or a file of commands that is refused.
pub const USAGE: u8 = 2;

/// That where a command has no answer, or something failed.
pub const FAILED: u8 = 3;
