//! When a request is sent again, and when it is given up.

ghost use Rattle.std.specs.Prelude.{◌≡◌, None, Some};
ghost use Rattle.pldm_requester.specs.Timings.{timing_fault, number_of_timing_fault};

use mctp_packet::{Eid, Keep};
use thiserror::Error;

/// The most times that a request may be sent.
pub const MAX_TRIES: u8 = 8;

/// When a request is sent again and when it is given up. This profile's own numbers.
#[derive(Clone, Copy, Debug, PartialEq, Eq)]
pub struct Timing {
    /// The keeping time, one for both ends of a link.
    pub keep: Keep,
    /// For how many milliseconds each try waits for an answer.
    pub timeout: u32,
    /// How many times a request may be sent.
    pub tries: u8,
}

/// Why a timing was refused.
#[derive(Clone, Copy, Debug, PartialEq, Eq, Error)]
pub enum TimingFault {
    /// The timeout is 0.
    #[error("the timeout is 0")]
    Timeout = 1,
    /// The tries are not 1 to [`MAX_TRIES`].
    #[error("the tries are not 1 to 8")]
    Tries = 2,
    /// All tries together take longer than the keeping time.
    #[error("the tries take longer than the keeping time")]
    TooLate = 3,
    /// The device has the requester's own endpoint ID.
    #[error("the device has the same endpoint ID")]
    SameEid = 4,
}

impl TimingFault {
    /// The fault's number in this profile's list.
    pub fn number(self) -> u8
        ensures { result ≡ number_of_timing_fault self }
    {
        self as u8
    }
}

impl Timing {
    ghost use Rattle.std.specs.Prelude.{◌≡◌, ◌*◌, ◌<◌, ◌^◌};
    ghost use Rattle.pldm_requester.specs.Timings.{timing_fault};

    /// After how many milliseconds from its opening a request is given up.
    pub(crate) fn life(&self) -> u64
        ensures value { result ≡ self.now.tries * self.now.timeout }
        ensures range { result < 2 ^ 40 }
    {
        u64::from(self.tries) * u64::from(self.timeout)
    }

    /// The first fault of this timing between two endpoints.
    pub(crate) fn fault(&self, own: Eid, device: Eid) -> Option<TimingFault>
        ensures { result ≡ timing_fault own device self.now }
    {
        if self.timeout == 0 {
            return Some(TimingFault::Timeout);
        }
        if self.tries < 1 || self.tries > MAX_TRIES {
            return Some(TimingFault::Tries);
        }
        if self.life() > u64::from(self.keep.get()) {
            return Some(TimingFault::TooLate);
        }
        if own == device {
            return Some(TimingFault::SameEid);
        }
        None
    }
}
