//! The answers of control messages.

ghost use Rattle.std.specs.Prelude.{◌≡◌};
ghost use Rattle.mctp_control.specs.Answers.{assignment_code, assignment_of, eid_kind_code, eid_kind_of, endpoint_code, endpoint_of};

use crate::{CompletionCode, MessageTypes, UUID_BYTES, Versions};

/// What became of an endpoint ID that was to be taken (DSP0236, "Set Endpoint ID").
#[derive(Clone, Copy, Debug, PartialEq, Eq)]
pub enum Assignment {
    /// 0: it was taken.
    Accepted,
    /// 1: it was not.
    Rejected,
}

impl Assignment {
    /// The assignment status in bits 5:4 of a byte, where there is one of this number.
    pub(crate) fn of(byte: u8) -> Option<Assignment>
        ensures { result ≡ assignment_of byte }
    {
        match byte >> 4 & 0x03 {
            0 => Some(Assignment::Accepted),
            1 => Some(Assignment::Rejected),
            _ => None,
        }
    }

    /// Its number on the wire, 0 or 1.
    pub(crate) fn code(self) -> u8
        ensures { result ≡ assignment_code self }
    {
        match self {
            Assignment::Accepted => 0,
            Assignment::Rejected => 1,
        }
    }
}

/// What an endpoint is (DSP0236, "Get Endpoint ID").
#[derive(Clone, Copy, Debug, PartialEq, Eq)]
pub enum EndpointKind {
    /// 0: a simple endpoint.
    Simple,
    /// 1: a bus owner or a bridge.
    BusOwner,
}

impl EndpointKind {
    /// The kind in bits 5:4 of a byte, where there is one of this number.
    pub(crate) fn of(byte: u8) -> Option<EndpointKind>
        ensures { result ≡ endpoint_of byte }
    {
        match byte >> 4 & 0x03 {
            0 => Some(EndpointKind::Simple),
            1 => Some(EndpointKind::BusOwner),
            _ => None,
        }
    }

    /// Its number on the wire, 0 or 1.
    pub(crate) fn code(self) -> u8
        ensures { result ≡ endpoint_code self }
    {
        match self {
            EndpointKind::Simple => 0,
            EndpointKind::BusOwner => 1,
        }
    }
}

/// Where an endpoint has its endpoint ID from (DSP0236, "Get Endpoint ID").
#[derive(Clone, Copy, Debug, PartialEq, Eq)]
pub enum EidKind {
    /// 0: it is given one.
    Dynamic,
    /// 1: it has a static one, which the present one may be or not.
    Static,
    /// 2: it has a static one, which the present one is.
    StaticNow,
    /// 3: it has a static one, and the present one is another.
    StaticNotNow,
}

impl EidKind {
    /// The kind of the two lowest bits.
    pub(crate) fn of(byte: u8) -> EidKind
        ensures { result ≡ eid_kind_of byte }
    {
        match byte & 0x03 {
            0 => EidKind::Dynamic,
            1 => EidKind::Static,
            2 => EidKind::StaticNow,
            _ => EidKind::StaticNotNow,
        }
    }

    /// Its number on the wire, 0 to 3.
    pub(crate) fn code(self) -> u8
        ensures { result ≡ eid_kind_code self }
    {
        match self {
            EidKind::Dynamic => 0,
            EidKind::Static => 1,
            EidKind::StaticNow => 2,
            EidKind::StaticNotNow => 3,
        }
    }
}

/// The answer to a command (DSP0236, the tables of the commands).
#[derive(Debug, PartialEq, Eq, Drop)]
pub enum Answer {
    /// The command was refused.
    Refused(CompletionCode),
    /// To Set Endpoint ID, of an endpoint that has no pool of endpoint IDs.
    EndpointIdSet {
        /// What became of the endpoint ID.
        assignment: Assignment,
        /// The endpoint ID that it has now.
        eid: u8,
    },
    /// To Get Endpoint ID.
    EndpointId {
        /// The endpoint ID that it has.
        eid: u8,
        /// What it is.
        endpoint: EndpointKind,
        /// Where it has its endpoint ID from.
        kind: EidKind,
        /// What the medium says of it; 0 where it says nothing.
        medium: u8,
    },
    /// To Get Endpoint UUID, in the order of RFC 4122.
    EndpointUuid([u8; UUID_BYTES]),
    /// To Get MCTP Version Support.
    VersionSupport(Versions),
    /// To Get Message Type Support.
    MessageTypeSupport(MessageTypes),
}
