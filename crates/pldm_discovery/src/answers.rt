//! The message that came to a command, read as the answer to it.

ghost use Rattle.std.specs.Prelude.{◌≡◌, option_map};
ghost use Rattle.pldm_discovery.specs.Answered.{answer_to};
ghost use Rattle.pldm_records.specs.Fetches.{now_of};

use pldm_wire::{Answer, Command, read_answer, read_response};

/// The answer that a message is to a command, a refusal too, where it is one.
#[tactic(auto, unfolding(crate::specs::Answered::answer_to))]
pub(crate) fn answer_to(command: &Command, message: Option<&[u8]>) -> Option<Answer>
    ensures { result ≡ answer_to command.now (option_map now_of message.entry) }
{
    let Some(bytes) = message else {
        return None;
    };
    let Ok(response) = read_response(bytes) else {
        return None;
    };
    match read_answer(command, &response) {
        Ok(answer) => Some(answer),
        Err(_) => None,
    }
}
