//! Why a schedule was not run.

ghost use Rattle.std.specs.Prelude.{◌≡◌};
ghost use Rattle.mctp_schedule.specs.RunFaults.{number_of_run_fault};

use mctp_packet::{Eid, Memory};
use pldm_requester::TimingFault;
use thiserror::Error;

/// Why a schedule was not run.
#[derive(Clone, Copy, Debug, PartialEq, Eq, Error)]
pub enum RunFault {
    /// The timing of the requester at this endpoint was refused.
    #[error("the timing of a requester was refused: {1}")]
    Timing(Eid, TimingFault),
    /// No memory was left.
    #[error("out of memory")]
    Memory(Memory),
}

impl RunFault {
    /// The fault's number in this profile's list.
    pub fn number(self) -> u8
        ensures { result ≡ number_of_run_fault self }
    {
        match self {
            RunFault::Timing(..) => 1,
            RunFault::Memory(_) => 2,
        }
    }
}

impl From<Memory> for RunFault {
    ghost use Rattle.mctp_schedule.specs.declared.run_fault.RunFault.TheVariants as faults;

    ghost from_gives = { λ memory fault. fault ≡ faults.Memory memory };

    fn from(memory: Memory) -> RunFault {
        RunFault::Memory(memory)
    }
}
