//! What both ends of an update do with their terminus.

ghost use Rattle.std.specs.Prelude.{◌≡◌, ◌≤◌, option_map};
ghost use Rattle.pldm_endpoint.specs.TwoSteps.{held_in};
ghost use Rattle.pldm_line.specs.Ends.{answer_of};
ghost use Rattle.pldm_requester.specs.Slots.{held_of};
ghost use Rattle.pldm_terminus.specs.Askings.{CameBefore};
ghost use Rattle.update_line.specs.OwnAnswers.{response_in};

use crate::update_end::Reply;
use bus_endpoint::BusStep;
use mctp_packet::{Body, Memory, Moment};
use pldm_endpoint::{AnswerRefusal, CommandHandle, ReceiveRefusal};
use pldm_line::moment_after;
use pldm_requester::{OpenFault, Requester, Status};
use pldm_responder::MessageOutcome;
use pldm_terminus::{AskFault, Terminus};
use pldm_update::{
    COMMAND_NOT_EXPECTED, FIRMWARE_UPDATE, UpdateAnswer, UpdateCommand, update_answer_data,
    update_command_data,
};
use pldm_wire::{Answer, Code, Kind, ResponseRef, read_response};

/// The moment of a reading of the clock at an end: never before the last one of either half.
pub(crate) fn moment_at(end: &Terminus, reading: u64) -> Moment
    ensures answering { (held_in end.now.answering.endpoint).last ≤ result }
    ensures asking { CameBefore end.now.asking.requester result }
{
    let now = moment_after(end.answering().endpoint().last_moment(), reading);
    match end.asking() {
        Some(requester) => moment_after(requester.last_moment(), now.get()),
        None => now,
    }
}

/// What is sent for what became of a packet.
pub(crate) fn reply_of(taken: MessageOutcome) -> Reply {
    match taken {
        MessageOutcome::Dropped(reason) => Reply::Dropped(reason),
        MessageOutcome::Partial => Reply::Nothing,
        MessageOutcome::Answered { route, .. } => Reply::Message(route),
    }
}

/// What is sent for an answer that the end took; nothing, where it took none.
pub(crate) fn answered(taken: Result<MessageOutcome, AnswerRefusal>) -> Reply {
    match taken {
        Ok(taken) => reply_of(taken),
        Err(_) => Reply::Nothing,
    }
}

/// What is sent for a packet that the end refused: nothing, since it counts as lost, but where memory was.
pub(crate) fn refused(refusal: ReceiveRefusal) -> Result<Reply, Memory> {
    match refusal {
        ReceiveRefusal::Memory(memory) => Err(memory),
        _ => Ok(Reply::Nothing),
    }
}

/// Gives the answer to the request under this handle; what is sent for it.
pub(crate) fn respond(
    end: &mut Terminus,
    handle: &CommandHandle,
    answer: &UpdateAnswer,
    reply: &mut Body,
) -> Reply {
    let data = update_answer_data(answer);
    answered(end.answer_bytes_message(handle, answer.code(), &data, reply))
}

/// Opens a request for this command; `None` where the requester opens none for now.
pub(crate) fn open(
    end: &mut Terminus,
    now: Moment,
    command: &UpdateCommand,
) -> Result<Option<u64>, Memory>
    requires { CameBefore end.old.asking.requester now }
{
    let kind = Kind {
        pldm_type: FIRMWARE_UPDATE,
        command: command.number(),
    };
    let data = update_command_data(command);
    match end.open_request(now, kind, &data) {
        Ok(opened) => Ok(Some(opened.number)),
        Err(AskFault::Open(OpenFault::Memory(memory))) => Err(memory),
        Err(_) => Ok(None),
    }
}

/// The message that answered a request.
fn answer_in(requester: &Requester, number: u64) -> Option<&[u8]>
    ensures { option_map (λ message. message.now) result ≡ answer_of (held_of requester.now) number }
{
    match requester.status(number) {
        Some(Status::Answered(message)) => Some(message),
        _ => None,
    }
}

/// The response that answered a request.
pub(crate) fn response_to(end: &Terminus, number: u64) -> Option<ResponseRef<'_>>
    ensures { result ≡ response_in end.now.asking.requester number }
{
    let requester = end.asking()?;
    let message = answer_in(requester, number)?;
    match read_response(message) {
        Ok(response) => Some(response),
        Err(_) => None,
    }
}

/// Refuses the request of firmware update under this handle, which comes in no update.
pub(crate) fn refuse_update(end: &mut Terminus, handle: &CommandHandle, reply: &mut Body) -> Reply {
    let code = Code::new(COMMAND_NOT_EXPECTED).unwrap();
    respond(end, handle, &UpdateAnswer::Refused(code), reply)
}

/// Refuses the command under this handle, which the end does not perform.
pub(crate) fn refuse(end: &mut Terminus, handle: &CommandHandle, reply: &mut Body) -> Reply {
    let answer = Answer::Refused(Code::ERROR_UNSUPPORTED_PLDM_CMD);
    answered(end.answer_message(handle, &answer, reply))
}
