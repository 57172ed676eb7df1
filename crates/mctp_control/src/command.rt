//! The commands of control messages.

ghost use Rattle.std.specs.Prelude.{◌≡◌};
ghost use Rattle.mctp_control.specs.Commands.{number_of, operation_code, operation_of};

use crate::{
    GET_ENDPOINT_ID, GET_ENDPOINT_UUID, GET_MESSAGE_TYPE_SUPPORT, GET_VERSION_SUPPORT,
    SET_ENDPOINT_ID,
};

/// What Set Endpoint ID asks for (DSP0236, "Set Endpoint ID").
#[derive(Clone, Copy, Debug, PartialEq, Eq)]
pub enum EidOperation {
    /// 0: to take the endpoint ID, unless it has one from elsewhere.
    Set,
    /// 1: to take it in any case.
    Force,
    /// 2: to go back to the static endpoint ID.
    Reset,
    /// 3: to be known as discovered.
    SetDiscovered,
}

impl EidOperation {
    /// The operation of the two lowest bits.
    pub(crate) fn of(byte: u8) -> EidOperation
        ensures { result ≡ operation_of byte }
    {
        match byte & 0x03 {
            0 => EidOperation::Set,
            1 => EidOperation::Force,
            2 => EidOperation::Reset,
            _ => EidOperation::SetDiscovered,
        }
    }

    /// Its number on the wire, 0 to 3.
    pub(crate) fn code(self) -> u8
        ensures { result ≡ operation_code self }
    {
        match self {
            EidOperation::Set => 0,
            EidOperation::Force => 1,
            EidOperation::Reset => 2,
            EidOperation::SetDiscovered => 3,
        }
    }
}

/// A command of a simple endpoint (DSP0236, "MCTP control command summary").
#[derive(Clone, Copy, Debug, PartialEq, Eq)]
pub enum Command {
    /// Gives the endpoint an endpoint ID.
    SetEndpointId {
        /// What is to be done with the endpoint ID.
        operation: EidOperation,
        /// The endpoint ID to take.
        eid: u8,
    },
    /// Asks for its endpoint ID.
    GetEndpointId,
    /// Asks for its UUID.
    GetEndpointUuid,
    /// Asks for the versions of a message type that it supports.
    GetVersionSupport {
        /// The message type, or `BASE_SPECIFICATION`.
        message_type: u8,
    },
    /// Asks for the message types that it supports.
    GetMessageTypeSupport,
}

impl Command {
    /// Its number (DSP0236, "MCTP control command summary").
    pub fn number(&self) -> u8
        ensures { result ≡ number_of self.now }
    {
        match self {
            Command::SetEndpointId { .. } => SET_ENDPOINT_ID,
            Command::GetEndpointId => GET_ENDPOINT_ID,
            Command::GetEndpointUuid => GET_ENDPOINT_UUID,
            Command::GetVersionSupport { .. } => GET_VERSION_SUPPORT,
            Command::GetMessageTypeSupport => GET_MESSAGE_TYPE_SUPPORT,
        }
    }
}
