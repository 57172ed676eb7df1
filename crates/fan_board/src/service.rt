//! A packet handed to the endpoint of the fan board, and the command in it performed by the board.

ghost use Rattle.std.specs.FinMap as map;
ghost use Rattle.std.specs.Prelude.{◌≡◌, ◌≤◌, length, IfOk, IfErr, OnErr};
ghost use Rattle.pldm_endpoint.specs.Giving.{response_of};
ghost use Rattle.pldm_endpoint.specs.Receiving.{HasAnswered, IsRefused};
ghost use Rattle.pldm_endpoint.specs.RequestKeys.{pending_at};
ghost use Rattle.pldm_endpoint.specs.TwoSteps.{IsHandedOn, held_in};
ghost use Rattle.fan_board.specs.Served.{IsServed, board_response_to};

use crate::board::Board;
use mctp_packet::Moment;
use pldm_endpoint::laws::answers_come_in_turn;
use pldm_endpoint::{CommandHandle, Endpoint, ReceiveRefusal, Step};
use pldm_responder::Outcome;

/// Gives a packet to the endpoint, and has the board perform the command that it asks for, or respond to the request of
/// PLDM type 63 that it brings, if any. Here the board answers before the next packet is looked at; a slower one would
/// be asked now and answer later, and more could be asked meanwhile.
///
/// # Errors
///
/// As from [`Endpoint::receive`]: the packet is lost, and all is as before. The board is asked nothing then.
pub fn serve(
    endpoint: &mut Endpoint,
    board: &mut Board,
    now: Moment,
    packet: &[u8],
) -> Result<Outcome, ReceiveRefusal>
    requires idle { endpoint.old.pending ≡ map.empty }
    requires later { (held_in endpoint.old).last ≤ now }
    ensures served { IfOk result
        (IsServed endpoint.old board.old now packet.now endpoint.new board.new) }
    ensures refused { IfErr result (IsRefused endpoint.old now packet.now endpoint.new) }
    ensures board { OnErr result (board.new ≡ board.old) }
    ensures idle { endpoint.new.pending ≡ map.empty }
{
    answers_come_in_turn();
    let handle = match endpoint.receive(now, packet) {
        Ok(Step::Perform(handle)) => handle,
        Ok(Step::Respond(handle)) => return Ok(respond(endpoint, board, &handle)),
        Ok(Step::Done(outcome)) => return Ok(outcome),
        Err(refusal) => return Err(refusal),
    };
    let Some(command) = endpoint.command(&handle) else {
        unreachable!();
    };
    let answer = board.perform(now, command);
    match endpoint.answer(&handle, &answer) {
        Ok(outcome) => Ok(outcome),
        Err(_) => unreachable!(),
    }
}

/// Has the board respond to the request that is pending under this handle, and hands that in.
fn respond(endpoint: &mut Endpoint, board: &Board, handle: &CommandHandle) -> Outcome
    requires { IsHandedOn (pending_at endpoint.old.pending handle.now) }
    ensures { HasAnswered endpoint.old handle.now
        (board_response_to board.now (pending_at endpoint.old.pending handle.now)) endpoint.new result }
{
    let Some(request) = endpoint.request(handle) else {
        unreachable!();
    };
    let (code, data) = board.respond(&request);
    match data {
        Some(byte) => give(endpoint, handle, code, &[byte]),
        None => give(endpoint, handle, code, &[]),
    }
}

/// Hands in a response to the request that is pending under this handle.
fn give(endpoint: &mut Endpoint, handle: &CommandHandle, code: u8, rest: &[u8]) -> Outcome
    requires handed_on { IsHandedOn (pending_at endpoint.old.pending handle.now) }
    requires few { length rest.now ≤ 1 }
    ensures { HasAnswered endpoint.old handle.now (response_of code rest.now) endpoint.new result }
{
    match endpoint.answer_bytes(handle, code, rest) {
        Ok(outcome) => outcome,
        Err(_) => unreachable!(),
    }
}
