//! `assign`: the device at the other end of a line is given an endpoint ID.

ghost use Rattle.std.specs.Prelude.{◌+◌, ◌≡◌, ◌<◌, ◌≤◌, IfOk, option_map};
ghost use Rattle.mctp_control.specs.Messages.{response_of};
ghost use Rattle.mctp_control.specs.declared.assigned.TheConstants.{INSTANCE_IDS};
ghost use Rattle.mctpctl.specs.AssignedTexts.{Assigns, assignment_of, status_by_response, status_of_assignment};
ghost use Rattle.mctpctl.specs.Conversations.{IsGoingOn, printed_in, shown_in};

use crate::conversation::Conversation;
use crate::settings::Settings;
use crate::statuses::{DONE, FAILED, REFUSED};
use crate::walking::ask_query;
use mctp_control::{AnyQuery, Command, EidOperation, LinkQuery, SUCCESS, read_response};
use mctp_packet::{Body, Eid, Tag};
use pldm_line::{AskFault, Ticks};
use std::io::{Read, Write};

/// The bits of the first byte of an answer's data that say whether the endpoint ID was accepted, where they are 0
/// (DSP0236, "Set Endpoint ID").
const ACCEPTED_SHIFT: u8 = 4;

/// Asks the device at the other end of a line to take the endpoint ID of the settings, prints its answer, and returns
/// the exit status.
pub fn assign_device<C: Ticks, R: Read, W: Write, O: Write>(
    rt: &HostRuntime,
    settings: &Settings,
    id: u8,
    conversation: &mut Conversation<C, R, W, O>,
) -> Result<u8, AskFault>
    requires query { id < INSTANCE_IDS }
    requires going { IsGoingOn conversation.old }
    ensures assigned { IfOk result (λ status. Assigns settings.now id status
        (shown_in C.to_come R.remaining W.contents conversation.old)
        (shown_in C.to_come R.remaining W.contents conversation.new)
        (printed_in O.contents conversation.old) (printed_in O.contents conversation.new)) }
    ensures range { IfOk result (λ status. status ≤ FAILED) }
{
    let keeper = &mut conversation.keeper;
    keeper.keep_queries(rt, id, &conversation.line)?;
    let query = assignment(settings, id);
    let answer = match ask_query(rt, settings, &query, conversation) {
        Ok(answer) => answer,
        Err(fault) => return Err(fault),
    };
    conversation.keeper.end_queries(&conversation.line);
    if answer.is_none() {
        let _ = eprintln!(rt; "mctpctl: SetEndpointID: no answer; it may have been performed");
    }
    Ok(status_of_assignment(settings.device, &answer))
}

/// The query that gives the device its endpoint ID, with this instance ID.
fn assignment(settings: &Settings, id: u8) -> AnyQuery
    requires { id < INSTANCE_IDS }
    ensures { result ≡ assignment_of settings.now id }
{
    let command = Command::SetEndpointId {
        operation: EidOperation::Set,
        eid: settings.device.get(),
    };
    AnyQuery::ToLink(LinkQuery::new(settings.own, Tag::new(0).unwrap(), id, command))
}

/// The exit status of an answer, where one came.
fn status_of_assignment(eid: Eid, answer: &Option<Body>) -> u8
    ensures value { result ≡ status_of_assignment eid (option_map (λ answer. answer.items) answer.now) }
    ensures range { result ≤ FAILED }
{
    match answer {
        Some(message) => status_by_message(eid, message),
        None => FAILED,
    }
}

/// The exit status of the message of an answer.
fn status_by_message(eid: Eid, message: &[u8]) -> u8
    ensures value { result ≡ status_by_response eid (response_of message.now) }
    ensures range { result ≤ FAILED }
{
    let Some(response) = read_response(message) else {
        return REFUSED;
    };
    match response.data() {
        [status, now, ..]
            if response.code() == SUCCESS
                && status >> ACCEPTED_SHIFT & 3 == 0
                && *now == eid.get() => { DONE }
        _ => REFUSED,
    }
}
