//! What came of a command to a sensor or effecter: no message, a wrong one, or the answer.

ghost use Rattle.std.specs.Prelude.{◌≡◌, option_map};
ghost use Rattle.pldm_wire.specs.Commands.{kind_of};
ghost use Rattle.pldm_wire.specs.Responses.{response_of};
ghost use Rattle.mctpctl_table.specs.Replies.{of_response, reply_to};

use pldm_wire::{Answer, Command, read_answer, read_response};

/// What came of a question.
#[derive(Debug, Drop)]
pub(crate) enum Reply {
    /// No message.
    Silence,
    /// A message that is no answer to the question.
    Wrong,
    /// The answer, a refusal or what was asked for.
    Answered(Answer),
}

/// What a message is to a command, or that none came.
pub(crate) fn reply_to(command: &Command, message: Option<&[u8]>) -> Reply
    ensures { result ≡ reply_to (kind_of command.now) (option_map (λ bytes. bytes.now) message.entry) }
{
    match message {
        Some(bytes) => reply_in(command, bytes),
        None => Reply::Silence,
    }
}

/// What a message is to a command.
fn reply_in(command: &Command, bytes: &[u8]) -> Reply
    ensures { result ≡ of_response (kind_of command.now) (response_of bytes.now) }
{
    let Ok(response) = read_response(bytes) else {
        return Reply::Wrong;
    };
    match read_answer(command, &response) {
        Ok(answer) => Reply::Answered(answer),
        Err(_) => Reply::Wrong,
    }
}
