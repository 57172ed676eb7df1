//! A request performed by the platform, or refused, with the message that answers it.

ghost use Rattle.std.specs.Prelude.{◌≡◌, ◌<◌, ◌≤◌, length, Ok, IfOk, IsOk, OnErr, IsTrue};
ghost use Rattle.pldm_wire.specs.Answers.{answer_message};
ghost use Rattle.pldm_wire.specs.CommandReading.{command_of};
ghost use Rattle.pldm_wire.specs.Commands.{CommandFields};
ghost use Rattle.pldm_wire.specs.declared.answer.Answer.TheVariants.{Refused};
ghost use Rattle.pldm_responder.specs.Performing.{rules_of};
ghost use Rattle.pldm_responder.specs.Serving.{IsDone, IsUndone};

use mctp_packet::{Body, MAX_MESSAGE_BYTES, Memory};
use pldm_platform::Platform;
use pldm_wire::{Answer, Code, Command, RequestRef, put_answer, read_command};
use std::alloc::Global;

/// Performs a request: its command where it has one, else it is refused. The message that answers it
/// is put into `reply`, and the result is whether it is of a command that sets, and was not refused.
/// An `Err` changes nothing of the platform. What `room` then holds is not specified.
pub(crate) fn perform<P: Platform>(
    alloc: Global,
    platform: &mut P,
    request: &RequestRef<'_>,
    room: &mut Answer,
    reply: &mut Body,
) -> Result<bool, Memory>
    ensures done { IfOk result (IsDone P.state P.performed (rules_of P.answer P.after P.sensed) platform.old request.now
        platform.new reply.new.items) }
    ensures err { OnErr result (IsUndone P.state P.performed platform.old platform.new) }
    ensures steady { IsTrue P.STEADY → IsOk result }
{
    // By reference: the command is not moved from where it was read.
    match &read_command(request) {
        Ok(command) => perform_command(alloc, platform, request, command, room, reply),
        Err(code) => {
            refuse(request, *code, reply);
            Ok(false)
        }
    }
}

/// As [`perform`], where the request has this command.
#[inline(always)]
fn perform_command<P: Platform>(
    alloc: Global,
    platform: &mut P,
    request: &RequestRef<'_>,
    command: &Command,
    room: &mut Answer,
    reply: &mut Body,
) -> Result<bool, Memory>
    requires read { command_of request.now.kind request.now.rest ≡ Ok command.now }
    requires fields { CommandFields command.now request.now.kind request.now.rest }
    ensures done { IfOk result (IsDone P.state P.performed (rules_of P.answer P.after P.sensed) platform.old request.now
        platform.new reply.new.items) }
    ensures err { OnErr result (IsUndone P.state P.performed platform.old platform.new) }
    ensures steady { IsTrue P.STEADY → IsOk result }
{
    platform.perform_into(alloc, command, room)?;
    put_answer(reply, request.id(), request.kind(), room);
    let _few = reply.len(); // for the proof: at most 256 bytes
    Ok(command.sets() && room.is_success())
}

/// Puts the message that refuses a request into `reply`.
// Not inlined: refusals are seldom, and the answer's room is not taken on the way of each request.
#[inline(never)]
pub fn refuse(request: &RequestRef<'_>, code: Code, reply: &mut Body)
    ensures answer { reply.new.items ≡ answer_message request.now.id request.now.kind (Refused code) }
    ensures some { 0 < length reply.new.items }
    ensures few { length reply.new.items ≤ MAX_MESSAGE_BYTES }
{
    put_answer(reply, request.id(), request.kind(), &Answer::Refused(code));
}
