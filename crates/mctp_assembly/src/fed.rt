//! What an assembler returns for one packet: a whole message, a part of one, or why the packet was dropped.

ghost use Rattle.std.specs.Prelude.{◌≡◌};
ghost use Rattle.mctp_assembly.specs.Fed.{fed_with};

use mctp_packet::{Body, Reason};

/// What a packet gives, as [`crate::Assembler::feed`] returns it.
#[derive(Debug, PartialEq, Eq, Drop)]
pub enum Fed {
    /// It completes a message of these bytes.
    Whole(Body),
    /// It begins a message of several packets, or goes on with one.
    Partial,
    /// It is dropped, for one of the reasons 8 to 11, and leaves its key with no assembly.
    Dropped(Reason),
}

/// What a packet gives, as [`crate::Assembler::feed_into`] returns it: the message that it completes is in a place of
/// its own.
#[derive(Clone, Copy, Debug, PartialEq, Eq)]
pub enum Assembled {
    /// It completes a message.
    Whole,
    /// It begins a message of several packets, or goes on with one.
    Partial,
    /// It is dropped, for one of the reasons 8 to 11, and leaves its key with no assembly.
    Dropped(Reason),
}

impl Assembled {
    /// The same, with the message that it completes.
    pub(crate) fn with(self, message: Body) -> Fed
        ensures { result ≡ fed_with message.items self }
    {
        match self {
            Assembled::Whole => Fed::Whole(message),
            Assembled::Partial => Fed::Partial,
            Assembled::Dropped(reason) => Fed::Dropped(reason),
        }
    }
}
