//! How much input a run takes. Each limit stands here alone.

/// The most bytes of input that a run looks at.
pub const MAX_INPUT: usize = 16_777_216;

/// The most bytes of a device description, the line ends in it counted.
pub const MAX_DESCRIPTION: usize = 1_048_576;

/// The most bytes of a capture line, a CR at its end counted and its LF not.
pub const MAX_CAPTURE_LINE: usize = 4_096;

/// The most bytes of the line that divides: `%%` and a CR.
pub const MAX_DIVIDER: usize = 3;
