//! The reasons to drop a packet or the message that it completes, by number and by name.

ghost use Rattle.std.specs.Prelude.{◌≡◌};
ghost use Rattle.mctp_packet.specs.Reasons.{number_of, name_of};

/// Why a packet, or the message that it completes, was dropped.
#[derive(Clone, Copy, Debug, PartialEq, Eq)]
pub enum Reason {
    /// 1: fewer bytes than a packet's header.
    Short,
    /// 2: a header version other than 1.
    BadVersion,
    /// 3: a destination that is no endpoint ID, or not the endpoint's own.
    UnknownDestination,
    /// 4: a source that is no endpoint ID, or the endpoint's own.
    BadSource,
    /// 5: a header with no payload.
    NoPayload,
    /// 6: more payload than the baseline transmission unit.
    UnsupportedUnit,
    /// 7: a tag, or its owner, that is not expected.
    BadTag,
    /// 8: a middle or end packet with no assembly to go on.
    UnexpectedMiddleOrEnd,
    /// 9: a packet whose sequence number is not the next.
    OutOfSequence,
    /// 10: a packet more than a message may have.
    TooLong,
    /// 11: a middle packet of another length than the first, or a longer end packet.
    WrongUnit,
    /// 12: a message of another type than PLDM.
    NotPldm,
    /// 13: a message with the integrity bit.
    Integrity,
    /// 14: fewer bytes than a PLDM header.
    ShortHeader,
    /// 15: a PLDM header version other than 0.
    BadPldmHeader,
    /// 16: a response where a request is read.
    NotRequest,
    /// 17: a datagram.
    Datagram,
    /// 18: a request where a response is read.
    NotResponse,
    /// 19: a response to no open request.
    NotMine,
    /// 20: a response with the completion code ERROR_NOT_READY, which answers no request.
    NotReady,
}

impl Reason {
    /// Its number in this profile's list, 1 to 20.
    pub fn number(self) -> u8
        ensures { result ≡ number_of self }
    {
        match self {
            Reason::Short => 1,
            Reason::BadVersion => 2,
            Reason::UnknownDestination => 3,
            Reason::BadSource => 4,
            Reason::NoPayload => 5,
            Reason::UnsupportedUnit => 6,
            Reason::BadTag => 7,
            Reason::UnexpectedMiddleOrEnd => 8,
            Reason::OutOfSequence => 9,
            Reason::TooLong => 10,
            Reason::WrongUnit => 11,
            Reason::NotPldm => 12,
            Reason::Integrity => 13,
            Reason::ShortHeader => 14,
            Reason::BadPldmHeader => 15,
            Reason::NotRequest => 16,
            Reason::Datagram => 17,
            Reason::NotResponse => 18,
            Reason::NotMine => 19,
            Reason::NotReady => 20,
        }
    }

    /// Its name, as logs and captures print it.
    pub fn name(self) -> &'static str
        ensures { result.now ≡ name_of self }
    {
        match self {
            Reason::Short => "Short",
            Reason::BadVersion => "BadVersion",
            Reason::UnknownDestination => "UnknownDestination",
            Reason::BadSource => "BadSource",
            Reason::NoPayload => "NoPayload",
            Reason::UnsupportedUnit => "UnsupportedUnit",
            Reason::BadTag => "BadTag",
            Reason::UnexpectedMiddleOrEnd => "UnexpectedMiddleOrEnd",
            Reason::OutOfSequence => "OutOfSequence",
            Reason::TooLong => "TooLong",
            Reason::WrongUnit => "WrongUnit",
            Reason::NotPldm => "NotPldm",
            Reason::Integrity => "Integrity",
            Reason::ShortHeader => "ShortHeader",
            Reason::BadPldmHeader => "BadPldmHeader",
            Reason::NotRequest => "NotRequest",
            Reason::Datagram => "Datagram",
            Reason::NotResponse => "NotResponse",
            Reason::NotMine => "NotMine",
            Reason::NotReady => "NotReady",
        }
    }
}
