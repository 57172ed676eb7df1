//! What became of a packet at a responder: dropped, a part of a message, or answered.

ghost use Rattle.std.specs.Prelude.{◌≡◌};
ghost use Rattle.pldm_responder.specs.Answering.{HasReply, answering};

use mctp_packet::{Body, Packets, Reason, Route, split};

/// What becomes of bytes that were received, as [`crate::Responder::receive`] returns it.
#[derive(Debug, Drop)]
pub enum Outcome {
    /// They are dropped, for one of the reasons 1 to 17.
    Dropped(Reason),
    /// They begin a message of several packets, or go on with one.
    Partial,
    /// They complete a request, which is answered.
    Answered {
        /// Whether the request was performed now. Else it is a copy and has its first answer, or the
        /// responder was busy.
        fresh: bool,
        /// Whether it was performed now, is of a command that sets, and was not refused.
        changed: bool,
        /// The packets of the answer.
        packets: Packets,
    },
}

/// What becomes of bytes that were received, as [`crate::Responder::receive_message`] returns it: the message that
/// answers them is in a place of its own.
#[derive(Debug, Drop)]
pub enum MessageOutcome {
    /// They are dropped, for one of the reasons 1 to 17.
    Dropped(Reason),
    /// They begin a message of several packets, or go on with one.
    Partial,
    /// They complete a request, which is answered.
    Answered {
        /// Whether the request was performed now. Else it is a copy and has its first answer, or the
        /// responder was busy.
        fresh: bool,
        /// Whether it was performed now, is of a command that sets, and was not refused.
        changed: bool,
        /// The route of the answer's packets.
        route: Route,
    },
}

impl MessageOutcome {
    /// The same outcome, with the packets of `reply`, the message that answers.
    pub fn outcome(self, reply: &Body) -> Outcome
        requires { HasReply reply.now.items self }
        ensures { result ≡ answering reply.now.items self }
    {
        match self {
            MessageOutcome::Dropped(reason) => Outcome::Dropped(reason),
            MessageOutcome::Partial => Outcome::Partial,
            MessageOutcome::Answered {
                fresh,
                changed,
                route,
            } => match split(&route, reply) {
                Ok(packets) => Outcome::Answered {
                    fresh,
                    changed,
                    packets,
                },
                Err(_) => unreachable!(),
            },
        }
    }
}
