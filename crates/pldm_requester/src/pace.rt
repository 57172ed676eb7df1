//! How soon a requester uses an instance ID again.

ghost use Rattle.std.specs.Prelude.{◌≡◌};
ghost use Rattle.pldm_requester.specs.Pacing.{number_of_pace_fault};

use crate::{MAX_OPEN, MAX_REMEMBERED, Timing, TimingFault};
use mctp_packet::Keep;
use pldm_wire::INSTANCE_IDS;
use thiserror::Error;

/// The most requests that are opened in a lifetime where they are spread.
const MOST_SPREAD: u8 = 16;

/// How soon an instance ID is used again for another request. This profile's own numbers.
///
/// An instance ID is always free again where twice the keeping time has passed since the request before with it was
/// opened. Where the line's lifetime is shorter than the keeping time and the device keeps answers for a window of
/// instance IDs, it is free before that: once twice the lifetime has passed, and as many requests as the window counts
/// were answered of those that were opened at least the lifetime after the request before.
#[derive(Clone, Copy, Debug, PartialEq, Eq)]
pub struct Pace {
    /// The line's lifetime in milliseconds: a packet of a request arrives less than this time after the request was
    /// opened, and one of an answer less than this time after what it answers. From 1 to the keeping time.
    pub lifetime: u64,
    /// The device's window: for how many instance IDs of this requester it keeps answers, 1 to 32. A larger number
    /// than the device's is safe.
    pub window: u8,
    /// Whether requests are spread: a request waits for the lifetime after the opening of the one so many before it, 16
    /// or 32 less the window, whichever is less. No burst then uses up all instance IDs. It changes nothing where the
    /// window is 32.
    pub spread: bool,
    /// Whether little is kept: the packets and the answer of a request only while it is among the last 8, and not among
    /// the last 32. Of the others it then knows what the rule needs: when they were opened, and whether they were answered.
    pub brief: bool,
}

/// Why a pace was refused.
#[derive(Clone, Copy, Debug, PartialEq, Eq, Error)]
pub enum PaceFault {
    /// The lifetime is 0.
    #[error("the lifetime is 0")]
    NoLifetime = 1,
    /// The lifetime is longer than the keeping time.
    #[error("the lifetime is longer than the keeping time")]
    LongLifetime = 2,
    /// All tries together take longer than the lifetime.
    #[error("the tries take longer than the lifetime")]
    TooLate = 3,
    /// The window is not 1 to 32.
    #[error("the window is not 1 to 32")]
    Window = 4,
}

/// Why a requester was not made: the first fault of its settings.
#[derive(Clone, Copy, Debug, PartialEq, Eq, Error)]
pub enum SettingFault {
    /// The timing has this fault.
    #[error("the timing is refused")]
    Timing(TimingFault),
    /// The pace has this fault.
    #[error("the pace is refused")]
    Pace(PaceFault),
}

impl PaceFault {
    /// The fault's number in this profile's list.
    pub fn number(self) -> u8
        ensures { result ≡ number_of_pace_fault self }
    {
        self as u8
    }
}

impl Pace {
    ghost use Rattle.std.specs.Prelude.{◌≡◌, ◌≤◌, ◌<◌};
    ghost use Rattle.pldm_requester.specs.Pacing.{at_default, kept, pace_fault, stride};
    ghost use Rattle.pldm_requester.specs.declared.requester.TheConstants.{MAX_OPEN, MAX_REMEMBERED};
    ghost use Rattle.pldm_requester.specs.declared.pace.TheConstants.{MOST_SPREAD};

    /// The pace that goes by the keeping time alone: an instance ID is used again after twice that time.
    pub fn at_default(keep: Keep) -> Pace
        ensures { result ≡ at_default keep }
    {
        Pace {
            lifetime: u64::from(keep.get()),
            window: INSTANCE_IDS,
            spread: false,
            brief: false,
        }
    }

    /// The first fault of this pace with a timing.
    pub(crate) fn fault(&self, timing: &Timing) -> Option<PaceFault>
        ensures { result ≡ pace_fault timing.now self.now }
    {
        if self.lifetime == 0 {
            return Some(PaceFault::NoLifetime);
        }
        if self.lifetime > u64::from(timing.keep.get()) {
            return Some(PaceFault::LongLifetime);
        }
        if timing.life() > self.lifetime {
            return Some(PaceFault::TooLate);
        }
        if self.window < 1 || self.window > INSTANCE_IDS {
            return Some(PaceFault::Window);
        }
        None
    }

    /// Of how many of the last requests the packets and the answer are kept.
    pub(crate) fn kept(&self) -> u64
        ensures value { result ≡ kept self.now }
        ensures some { MAX_OPEN ≤ result }
        ensures range { result ≤ MAX_REMEMBERED }
    {
        if self.brief {
            MAX_OPEN as u64
        } else {
            MAX_REMEMBERED as u64
        }
    }

    /// How many requests before another is the one whose opening it waits for: 0 where requests are not spread.
    pub(crate) fn stride(&self) -> u8
        ensures value { result ≡ stride self.now }
        ensures range { result ≤ MOST_SPREAD }
    {
        if !self.spread {
            return 0;
        }
        let others = INSTANCE_IDS.saturating_sub(self.window);
        if others < MOST_SPREAD {
            others
        } else {
            MOST_SPREAD
        }
    }
}
