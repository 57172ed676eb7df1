//! When the last request with each instance ID was opened: what another process needs to go on.

ghost use Rattle.std.specs.Prelude.{◌≡◌, ◌↔◌, ◌<◌, true, IfSome, IsSome};
ghost use Rattle.pldm_requester.specs.Resuming.{AreKnown, IsKnown, count_after, last_with};
ghost use Rattle.pldm_requester.specs.Slots.{most_opened};
ghost use Rattle.mctp_packet.specs.Ids.{IsMoment};

use crate::SettingFault;
use arrayvec::ArrayVec;
use mctp_packet::{MAX_MOMENT, Memory, Moment};
use pldm_wire::INSTANCE_IDS;
use thiserror::Error;

/// The most openings that are kept: one for each instance ID.
const MAX_OPENINGS: usize = 32;

/// When requests were opened at an endpoint for a device, as far as it says which instance ID may be used again
/// (DSP0240, "PLDM message fields"). Moments are milliseconds on one clock, that of each process that uses it.
#[derive(Debug, Clone, PartialEq, Eq, Drop)]
pub struct Openings {
    /// The instance ID of the next request, less than 32. Where fewer IDs were used, it is their number.
    pub next: u8,
    /// The moment of the last opening with each instance ID, from 0 on. Those that were not used are left out.
    pub moments: ArrayVec<u64, 32>,
}

/// Why no requester goes on.
#[derive(Clone, Copy, Debug, PartialEq, Eq, Error)]
pub enum ResumeFault {
    /// A setting is refused.
    #[error("{0}")]
    Setting(SettingFault),
    /// No requester leaves such openings.
    #[error("the openings are not those of a requester")]
    Openings,
    /// No memory was left.
    #[error("out of memory")]
    Memory(Memory),
}

impl From<Memory> for ResumeFault {
    ghost use Rattle.pldm_requester.specs.declared.openings.ResumeFault.TheVariants as faults;

    ghost from_gives = { λ memory fault. fault ≡ faults.Memory memory };

    fn from(memory: Memory) -> ResumeFault {
        ResumeFault::Memory(memory)
    }
}

impl Openings {
    /// The number of the next request, where a requester can have left these openings up to now.
    pub(crate) fn count_at(&self, now: Moment) -> Option<u64>
        ensures value { IfSome result (λ count. count ≡ count_after self.now) }
        ensures known { IsSome result ↔ AreKnown now self.now }
    {
        let count = self.count();
        let next = count % u64::from(INSTANCE_IDS);
        if u64::from(self.next) != next || count > most_opened(now.get()) {
            return None;
        }
        for id in 0..self.moments.len() {
            if !self.is_known(id, count) {
                return None;
            }
        }
        Some(count)
    }

    /// The number of the next request.
    fn count(&self) -> u64
        ensures { result ≡ count_after self.now }
    {
        let used = self.moments.len();
        if used < MAX_OPENINGS {
            used as u64
        } else {
            MAX_OPENINGS as u64 + u64::from(self.next)
        }
    }

    /// Whether a requester can have opened its last request with an instance ID at the moment that is kept of it.
    fn is_known(&self, id: usize, count: u64) -> bool
        requires { count ≡ count_after self.now }
        ensures { IsKnown self.now id ↔ (result ≡ true) }
    {
        match self.moments.get(id) {
            Some(&moment) => {
                moment <= MAX_MOMENT && last_with(count, id as u64) < most_opened(moment)
            }
            None => true,
        }
    }
}

/// How many requests at most were opened up to a moment.
fn most_opened(moment: u64) -> u64
    requires { IsMoment moment }
    ensures { result ≡ most_opened moment }
{
    16 * moment + 32
}

/// The number of the last request with an instance ID, below a count of at most twice the instance IDs.
fn last_with(count: u64, id: u64) -> u64
    requires { id < INSTANCE_IDS }
    ensures { result ≡ last_with count id }
{
    let second = u64::from(INSTANCE_IDS) + id;
    if second < count { second } else { id }
}
