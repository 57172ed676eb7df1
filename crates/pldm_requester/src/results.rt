//! What the calls of a requester return.

ghost use Rattle.std.specs.Prelude.{◌≡◌};
ghost use Rattle.pldm_requester.specs.OpenFaults.{number_of_open_fault};

use crate::MAX_OPEN;
use arrayvec::ArrayVec;
use mctp_packet::{Memory, Reason, Tag};
use thiserror::Error;

/// The requests that a tick found due, by their numbers, each list in ascending order.
#[derive(Debug, PartialEq, Eq, Drop)]
pub struct Due {
    /// Those whose packets are to be sent again.
    pub again: ArrayVec<u64, MAX_OPEN>,
    /// Those that were given up.
    pub given_up: ArrayVec<u64, MAX_OPEN>,
}

/// What becomes of bytes that were received.
#[derive(Clone, Copy, Debug, PartialEq, Eq)]
pub enum Got {
    /// They are dropped, for one of the reasons 1 to 20 other than 16.
    Dropped(Reason),
    /// They begin a message of several packets, or go on with one.
    Partial,
    /// They complete the answer to the request with this number.
    Answered(u64),
}

/// A request that was opened.
#[derive(Clone, Copy, Debug, PartialEq, Eq)]
pub struct Opened {
    /// Its number, counted from 0 over all requests of its requester.
    pub number: u64,
    /// Its instance ID, the number modulo 32.
    pub id: u8,
    /// Its message tag, the number modulo 8.
    pub tag: Tag,
}

/// Why no request was opened.
#[derive(Clone, Copy, Debug, PartialEq, Eq, Error)]
pub enum OpenFault {
    /// The last request with the next tag is still open.
    #[error("the next tag is in use")]
    TagInUse,
    /// The last request with the next instance ID was opened less than twice the keeping time ago.
    #[error("the next instance ID is in use")]
    IdInUse,
    /// No memory was left.
    #[error("out of memory")]
    Memory(Memory),
}

impl OpenFault {
    /// The fault's number in this profile's list.
    pub fn number(self) -> u8
        ensures { result ≡ number_of_open_fault self }
    {
        match self {
            OpenFault::TagInUse => 1,
            OpenFault::IdInUse => 2,
            OpenFault::Memory(_) => 3,
        }
    }
}

impl From<Memory> for OpenFault {
    ghost use Rattle.pldm_requester.specs.declared.results.OpenFault.TheVariants as faults;

    ghost from_gives = { λ memory fault. fault ≡ faults.Memory memory };

    fn from(memory: Memory) -> OpenFault {
        OpenFault::Memory(memory)
    }
}

/// How a request stands.
#[derive(Clone, Copy, Debug, PartialEq, Eq)]
pub enum Status<'a> {
    /// It is open: neither answered nor given up.
    Open,
    /// It was answered, by this response message.
    Answered(&'a [u8]),
    /// It was given up.
    GaveUp,
}
