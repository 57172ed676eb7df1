//! What the calls of an endpoint return: what a packet asks of the device, and why a call was refused.

ghost use Rattle.std.specs.Prelude.{◌≡◌, true, false, if◌then◌else◌};
ghost use Rattle.pldm_wire.specs.Answers.{IsAnswerTo};
ghost use Rattle.pldm_endpoint.specs.RefusalNames.{name_of, name_of_answer_refusal};
ghost use Rattle.pldm_endpoint.specs.declared.step.MessageStep.TheVariants.{Perform, Respond};

use mctp_packet::{Eid, Memory};
use pldm_responder::{MessageOutcome, Outcome, RoomRefusal};
use pldm_wire::{Answer, Kind};
use thiserror::Error;

/// The handle of what is asked of the device: whose request it is of, and its number. Nothing else that an endpoint
/// asks has that number.
#[derive(Clone, Copy, Debug, PartialEq, Eq)]
pub struct CommandHandle {
    /// The endpoint that the request came from.
    pub source: Eid,
    /// The request's instance ID.
    pub id: u8,
    /// How many commands and requests were handed out before.
    pub number: u64,
}

/// What becomes of the bytes of a packet, as [`crate::Endpoint::receive`] returns it.
#[derive(Debug, Drop)]
pub enum Step {
    /// They complete a request whose command the device has to perform now, once.
    Perform(CommandHandle),
    /// They complete a request that is handed on as bytes: the device has to respond to it now, once.
    Respond(CommandHandle),
    /// They are done with: dropped, a part of a message, or answered.
    Done(Outcome),
}

/// What becomes of the bytes of a packet, as [`crate::Endpoint::receive_message`] returns it: the message that answers
/// them is in a place of its own.
#[derive(Debug, Drop)]
pub enum MessageStep {
    /// They complete a request whose command the device has to perform now, once.
    Perform(CommandHandle),
    /// They complete a request that is handed on as bytes: the device has to respond to it now, once.
    Respond(CommandHandle),
    /// They are done with: dropped, a part of a message, or answered.
    Done(MessageOutcome),
}

/// What is asked of the device under this handle: to perform a command, or to respond to a request as bytes.
pub(crate) fn asking(is_command: bool, handle: CommandHandle) -> MessageStep
    ensures { result ≡ (if is_command then Perform handle else Respond handle) }
{
    if is_command {
        MessageStep::Perform(handle)
    } else {
        MessageStep::Respond(handle)
    }
}

/// Why a packet was refused. It counts as lost on the bus, and the endpoint is as before.
#[derive(Clone, Copy, Debug, PartialEq, Eq, Error)]
pub enum ReceiveRefusal {
    /// Another request of this source and instance ID has a pending command.
    #[error("{}", self.name())]
    Performing,
    /// The command of this very request is pending.
    #[error("{}", self.name())]
    BeingPerformed,
    /// As many commands are pending as may be.
    #[error("{}", self.name())]
    Full,
    /// As many sources have kept answers or pending commands as the bounds allow.
    #[error("{}", self.name())]
    Sources,
    /// As many messages of several packets are open as the bounds allow.
    #[error("{}", self.name())]
    OpenMessages,
    /// A growth of memory was refused.
    #[error("{}", self.name())]
    Memory(Memory),
}

impl ReceiveRefusal {
    /// What it is, in a few words.
    pub fn name(self) -> &'static str
        ensures { result.now ≡ name_of self }
    {
        match self {
            ReceiveRefusal::Performing =>
                "another command of its source and instance ID is pending",
            ReceiveRefusal::BeingPerformed => "its command is pending",
            ReceiveRefusal::Full => "too many commands are pending",
            ReceiveRefusal::Sources => "too many sources",
            ReceiveRefusal::OpenMessages => "too many open messages",
            ReceiveRefusal::Memory(_) => "out of memory",
        }
    }
}

impl From<RoomRefusal> for ReceiveRefusal {
    ghost use Rattle.pldm_endpoint.specs.RefusalNames.{of_room};

    ghost from_gives = { λ room refusal. refusal ≡ of_room room };

    fn from(room: RoomRefusal) -> ReceiveRefusal {
        match room {
            RoomRefusal::Sources => ReceiveRefusal::Sources,
            RoomRefusal::OpenMessages => ReceiveRefusal::OpenMessages,
            RoomRefusal::Memory(memory) => ReceiveRefusal::Memory(memory),
        }
    }
}

impl From<Memory> for ReceiveRefusal {
    ghost use Rattle.pldm_endpoint.specs.declared.step.ReceiveRefusal.TheVariants as refusals;

    ghost from_gives = { λ memory refusal. refusal ≡ refusals.Memory memory };

    fn from(memory: Memory) -> ReceiveRefusal {
        ReceiveRefusal::Memory(memory)
    }
}

/// Why an answer was refused. The endpoint is as before.
#[derive(Clone, Copy, Debug, PartialEq, Eq, Error)]
pub enum AnswerRefusal {
    /// No command is pending under this handle: it was answered, or forgotten by a restart.
    #[error("{}", self.name())]
    NotPending,
    /// It is the answer to another command, or what is pending was handed on as bytes; or it is a response in bytes,
    /// and what is pending is a command.
    #[error("{}", self.name())]
    OtherCommand,
    /// The data of a response has more than [`pldm_wire::MAX_RESPONSE_DATA`] bytes.
    #[error("{}", self.name())]
    TooLong,
}

impl AnswerRefusal {
    /// What it is, in a few words.
    pub fn name(self) -> &'static str
        ensures { result.now ≡ name_of_answer_refusal self }
    {
        match self {
            AnswerRefusal::NotPending => "no command is pending under this handle",
            AnswerRefusal::OtherCommand => "the answer is to another command",
            AnswerRefusal::TooLong => "the data is too long",
        }
    }
}

/// Whether this answers a command of this kind. A refusal answers any.
pub(crate) fn is_answer_to(answer: &Answer, kind: Kind) -> bool
    ensures yes { result ≡ true → IsAnswerTo kind answer.now }
    ensures no { result ≡ false → IsAnswerTo kind answer.now → ⊥ }
{
    match answer.kind() {
        Some(answered) => kind == answered,
        None => true,
    }
}
