//! A response read into the struct of its fields for C, or the number that says why it is no answer.

ghost use Rattle.std.specs.Prelude.{◌≡◌, Err, IfErr, IfOk};
ghost use Rattle.pldm_wire.specs.AnswerReading.{answer_of};
ghost use Rattle.pldm_wire.specs.Commands.{kind_of};
ghost use Rattle.pldm_wire.specs.Requests.{request_of};
ghost use Rattle.pldm_wire.specs.Responses.{response_of};
ghost use Rattle.needleoat_forms.specs.AnswersToRequests.{IsAnswerRead, answer_between, answered_or_fault, number_of_outcome};

use crate::AnswerFields;
use pldm_wire::{Command, ResponseRef, read_answer, read_command, read_request, read_response};

/// Reads a response as the answer to a request, and its fields into `fields` (DSP0240, DSP0248).
/// Returns 0 where it is one. Otherwise it leaves `fields` as it was and returns the first of these
/// numbers: 1 the first message is no request, 2 it carries no command of this profile, 3 the second
/// is no response, 4 it has another instance ID, 5 it is to another command, 6 its data is shorter or
/// longer than the answer's, 7 a data size, a count or a flag of it has no such value.
pub fn answer_read(request: &[u8], response: &[u8], fields: &mut AnswerFields) -> u8
    ensures { IsAnswerRead (answer_between (request_of request.now) (response_of response.now)) result
        fields.old fields.new }
{
    let (command, response) = match messages_in(request, response) {
        Ok(messages) => messages,
        Err(number) => return number,
    };
    match read_answer(&command, &response) {
        Ok(answer) => {
            fields.set(response.id(), response.kind(), &answer);
            0
        }
        Err(fault) => 4 + fault.number(),
    }
}

/// Whether a response is the answer to a request: the number that [`answer_read`] returns.
pub fn answer_check(request: &[u8], response: &[u8]) -> u8
    ensures { result ≡ number_of_outcome (answer_between (request_of request.now) (response_of response.now)) }
{
    let (command, response) = match messages_in(request, response) {
        Ok(messages) => messages,
        Err(number) => return number,
    };
    match read_answer(&command, &response) {
        Ok(_) => 0,
        Err(fault) => 4 + fault.number(),
    }
}

/// The command of a request and a response with its instance ID, or the number that says why there
/// is none.
fn messages_in<'a>(request: &[u8], response: &'a [u8]) -> Result<(Command, ResponseRef<'a>), u8>
    ensures found { IfOk result (λ r. answer_between (request_of request.now) (response_of response.now)
        ≡ answered_or_fault r.1 (answer_of (kind_of r.0) r.1.kind r.1.code r.1.rest)) }
    ensures none { IfErr result (λ number. answer_between (request_of request.now) (response_of response.now)
        ≡ Err number) }
{
    let Ok(request) = read_request(request) else {
        return Err(1);
    };
    let Ok(command) = read_command(&request) else {
        return Err(2);
    };
    let Ok(response) = read_response(response) else {
        return Err(3);
    };
    if response.id() != request.id() {
        return Err(4);
    }
    Ok((command, response))
}
