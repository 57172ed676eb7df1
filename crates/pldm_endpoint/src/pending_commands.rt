//! The requests that were handed to the device and are not answered yet.

ghost use Rattle.std.specs.FinMap as map;
ghost use Rattle.std.specs.Prelude.{◌≡◌, ◌<◌, ◌≤◌, ◌&&◌, ◌==◌, length, IsOk, OnOk, OnErr};
ghost use Rattle.std.specs.Option.{option_copied};
ghost use Rattle.mctp_packet.specs.declared.TheConstants.{MAX_MESSAGE_BYTES};
ghost use Rattle.pldm_wire.specs.Answers.{IsAnswerTo, answer_message, code_of};
ghost use Rattle.pldm_wire.specs.Commands.{kind_of, sets};
ghost use Rattle.pldm_wire.specs.Requests.{request_of};
ghost use Rattle.pldm_wire.specs.declared.assigned.TheConstants.{INSTANCE_IDS, SUCCESS};
ghost use Rattle.pldm_wire.specs.declared.limits.TheConstants.{MAX_REQUEST_DATA};
ghost use Rattle.pldm_endpoint.specs.RequestKeys.{pending_at, number_of};
ghost use Rattle.pldm_endpoint.specs.TwoSteps.{request_at};

use crate::command_list::CommandList;
use crate::request_bytes::RequestBytes;
use crate::step::CommandHandle;
use mctp_packet::{Body, Eid, Memory, Moment, Tag};
use pldm_wire::{Answer, Command, RequestRef, put_answer, read_request};
use std::alloc::Global;
use std::marker::Model;

/// Which request of an endpoint it is: the source that it came from, and its instance ID.
#[derive(Clone, Copy, Debug, PartialEq, Eq)]
pub struct RequestKey {
    /// The endpoint that it came from.
    pub source: Eid,
    /// Its instance ID.
    pub id: u8,
}

impl RequestKey {
    /// Its number: they are numbered by source, then by instance ID.
    fn number(self) -> u16
        ensures value { result ≡ number_of self }
        ensures range { self.id < 256 }
    {
        u16::from(self.source.get()) * 256 + u16::from(self.id)
    }
}

/// What was asked of the device and is not answered: to perform a command, or to respond to a request as bytes; with
/// the request.
#[derive(Drop)]
pub struct PendingCommand {
    /// The tag of the packets of its request.
    pub(crate) tag: Tag,
    /// When the request came.
    pub(crate) moment: Moment,
    /// How many commands and requests were handed out before.
    pub(crate) number: u64,
    /// The command, where it is to be performed: none where the request is handed on as bytes.
    pub(crate) command: Option<Command>,
    /// The bytes of the request.
    pub(crate) request: RequestBytes,
}

impl PendingCommand {
    /// The request.
    pub(crate) fn request(&self) -> RequestRef<'_>
        requires { IsOk (request_of self.now.request) }
        ensures value { result ≡ request_at self.now.request }
        ensures few { length result.rest ≤ MAX_REQUEST_DATA }
    {
        match read_request(self.request.as_slice()) {
            Ok(request) => request,
            Err(_) => unreachable!(),
        }
    }
}

/// Puts the message that answers a request with this instance ID and command into `reply`, where the device gave this
/// answer. The result is whether it is of a command that sets, and was not refused.
pub(crate) fn put_reply(command: &Command, id: u8, answer: &Answer, reply: &mut Body) -> bool
    requires range { id < INSTANCE_IDS }
    requires its { IsAnswerTo (kind_of command.now) answer.now }
    ensures reply { reply.new.items ≡ answer_message id (kind_of command.now) answer.now }
    ensures changed { result ≡ (sets command.now && code_of answer.now == SUCCESS) }
    ensures some { 0 < length reply.new.items }
    ensures few { length reply.new.items ≤ MAX_MESSAGE_BYTES }
{
    put_answer(reply, id, command.kind(), answer);
    let _few = reply.len(); // for the proof: at most 320 bytes
    command.sets() && answer.is_success()
}

/// What was asked and is not answered, at most one thing for each source and instance ID.
#[derive(Drop)]
pub(crate) struct PendingCommands {
    list: CommandList,
}

impl Model for PendingCommands {
    ghost use Rattle.std.specs.FinMap as map;
    ghost use Rattle.pldm_endpoint.specs.RequestKeys.{PendingCommands as CommandsByKey, pending_in, coded_request_key};
    ghost use Rattle.pldm_endpoint.specs.contracts.pending_commands.PendingCommand as command_type;

    ghost Value = { CommandsByKey };

    ghost coded = { map.code coded_request_key command_type.the_row.coded };

    ghost view = { λ p. pending_in p.list };
}

impl PendingCommands {
    /// No commands. It takes no memory.
    pub(crate) fn new(alloc: Global) -> PendingCommands
        ensures { result ≡ map.empty }
    {
        PendingCommands {
            list: CommandList::new(alloc),
        }
    }

    /// The command of this source and instance ID.
    pub(crate) fn get(&self, key: RequestKey) -> Option<&PendingCommand>
        ensures { option_copied result ≡ map.get self.now key }
    {
        self.list.get(key.number())
    }

    /// What is pending under this handle.
    pub(crate) fn at(&self, handle: &CommandHandle) -> Option<&PendingCommand>
        ensures { option_copied result ≡ pending_at self.now handle.now }
    {
        let (source, id) = (handle.source, handle.id);
        let pending = self.get(RequestKey { source, id })?;
        if pending.number == handle.number {
            Some(pending)
        } else {
            None
        }
    }

    /// Puts a command.
    pub(crate) fn insert(&mut self, key: RequestKey, command: PendingCommand) -> Result<(), Memory>
        ensures ok { OnOk result (self.new ≡ map.insert self.old key command) }
        ensures err { OnErr result (self.new ≡ self.old) }
    {
        self.list.put(key.number(), command)?;
        Ok(())
    }

    /// Takes a command away.
    pub(crate) fn remove(&mut self, key: RequestKey)
        ensures { self.new ≡ map.remove self.old key }
    {
        self.list.remove(key.number());
    }

    /// How many there are.
    pub(crate) fn len(&self) -> usize
        ensures { result ≡ map.len self.now }
    {
        self.list.len()
    }
}
