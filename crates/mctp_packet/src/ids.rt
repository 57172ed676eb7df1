//! The numbers of a packet: endpoint IDs, message tags and packet sequence numbers (DSP0236).

ghost use Rattle.std.specs.Prelude.{◌≡◌, ℕ, ◌↔◌, IsSome, IfSome};
ghost use Rattle.mctp_packet.specs.Ids.{IsEid, IsTag, IsSeq};

use crate::{MAX_EID, MIN_EID, SEQUENCE_NUMBERS, TAGS};
use std::marker::Model;

/// An endpoint ID that can be a packet's source or destination: 8 to 254.
///
/// 0 is the null ID, 1 to 7 are reserved and 255 is broadcast (DSP0236, "Special endpoint IDs").
#[derive(Clone, Copy, Debug, PartialEq, Eq, PartialOrd, Ord)]
pub struct Eid {
    number: u8,
}

impl Model for Eid {
    ghost Value = { ℕ };

    ghost view = { λ id. id.number };

    ghost invariant = { λ id. IsEid id.number };

    ghost inverse = { λ n. record { number = n } };
}

impl Eid {
    /// The endpoint ID of this number, where it is 8 to 254.
    pub fn new(number: u8) -> Option<Eid>
        ensures some { IsSome result ↔ IsEid number }
        ensures value { IfSome result (λ id. id ≡ number) }
        ensures range { IfSome result IsEid }
    {
        if (MIN_EID..=MAX_EID).contains(&number) {
            Some(Eid { number })
        } else {
            None
        }
    }

    /// Its number, 8 to 254.
    pub fn get(self) -> u8
        ensures value { result ≡ self }
        ensures range { IsEid self }
    {
        self.number
    }
}

/// A message tag, 0 to 7 (DSP0236, "MCTP packet fields").
#[derive(Clone, Copy, Debug, PartialEq, Eq, PartialOrd, Ord)]
pub struct Tag {
    tag: u8,
}

impl Model for Tag {
    ghost Value = { ℕ };

    ghost view = { λ tag. tag.tag };

    ghost invariant = { λ tag. IsTag tag.tag };

    ghost inverse = { λ n. record { tag = n } };
}

impl Tag {
    /// The tag of this number, where it is 0 to 7.
    pub fn new(number: u8) -> Option<Tag>
        ensures some { IsSome result ↔ IsTag number }
        ensures value { IfSome result (λ tag. tag ≡ number) }
        ensures range { IfSome result IsTag }
    {
        if number < TAGS {
            Some(Tag { tag: number })
        } else {
            None
        }
    }

    /// Its number, 0 to 7.
    pub fn get(self) -> u8
        ensures value { result ≡ self }
        ensures range { IsTag self }
    {
        self.tag
    }
}

/// A packet sequence number, 0 to 3 (DSP0236, "MCTP packet fields").
#[derive(Clone, Copy, Debug, PartialEq, Eq, PartialOrd, Ord)]
pub struct Seq {
    seq: u8,
}

impl Model for Seq {
    ghost Value = { ℕ };

    ghost view = { λ seq. seq.seq };

    ghost invariant = { λ seq. IsSeq seq.seq };

    ghost inverse = { λ n. record { seq = n } };
}

impl Seq {
    /// The sequence number of this value, where it is 0 to 3.
    pub fn new(number: u8) -> Option<Seq>
        ensures some { IsSome result ↔ IsSeq number }
        ensures value { IfSome result (λ seq. seq ≡ number) }
        ensures range { IfSome result IsSeq }
    {
        if number < SEQUENCE_NUMBERS {
            Some(Seq { seq: number })
        } else {
            None
        }
    }

    /// Its value, 0 to 3.
    pub fn get(self) -> u8
        ensures value { result ≡ self }
        ensures range { IsSeq self }
    {
        self.seq
    }
}
