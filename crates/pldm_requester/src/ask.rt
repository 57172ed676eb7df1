//! What a request asks: a command that is written here, or any other of which the data is given.

ghost use Rattle.std.specs.Prelude.{◌≡◌, ◌<◌, ◌≤◌, length};
ghost use Rattle.pldm_wire.specs.declared.assigned.TheConstants.{INSTANCE_IDS};
ghost use Rattle.pldm_requester.specs.Asks.{ask_message};
ghost use Rattle.pldm_requester.specs.AskRefs.{HasRoom, IsReadable, ask_in};

use mctp_packet::{Body, MAX_MESSAGE_BYTES};
use pldm_wire::{Command, Kind, put_command, put_request};

/// What a request asks.
#[derive(Drop)]
pub(crate) enum AskRef<'a> {
    /// This command.
    Command(&'a Command),
    /// What this type, command and data ask.
    Data(Kind, &'a [u8]),
}

impl AskRef<'_> {
    /// Which command it is of.
    pub(crate) fn kind(&self) -> Kind
        ensures { result ≡ (ask_in self.now).kind }
    {
        match self {
            AskRef::Command(command) => command.kind(),
            AskRef::Data(kind, _) => *kind,
        }
    }

    /// Puts the message that asks it with this instance ID in the place of what `body` holds.
    pub(crate) fn put(&self, body: &mut Body, id: u8)
        requires id { id < INSTANCE_IDS }
        requires room { HasRoom self.now }
        ensures spelled { body.new.items ≡ ask_message id (ask_in self.now) }
        ensures some { 0 < length body.new.items }
        ensures few { length body.new.items ≤ MAX_MESSAGE_BYTES }
        ensures readable { IsReadable self.now }
    {
        pldm_wire::laws::messages_fit();
        match self {
            AskRef::Command(command) => put_command(body, id, command),
            AskRef::Data(kind, data) => put_request(body, id, *kind, data),
        }
    }
}
