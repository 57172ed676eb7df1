//! Why a device description was refused, and where.

ghost use Rattle.std.specs.Prelude.{◌≡◌};
ghost use Rattle.mctp_packet.specs.Memories.{out_of_memory};

use crate::allowed::Allowed;
use crate::description_fault::FileFault;
use crate::path::Path;
use mctp_packet::Memory;
use std::alloc::{AllocError, AllocFailed};
use std::marker::Model;

/// Why a device description was refused: the fault, where it is, and what is allowed there. In a clause it is its fault
/// alone.
#[derive(Debug, Drop)]
pub struct Refusal {
    fault: FileFault,
    /// Where the value is that was refused, or the key that is missing.
    pub path: Path<'static>,
    /// What is allowed there.
    pub allowed: Allowed,
}

impl Model for Refusal {
    ghost use Rattle.pldm_device.specs.declared.description_fault.FileFault.{FileFault};

    ghost Value = { FileFault };

    ghost view = { λ refusal. refusal.fault };
}

impl Refusal {
    /// The refusal of what is at the path, where this is allowed.
    pub(crate) fn new(fault: FileFault, path: Path<'static>, allowed: Allowed) -> Refusal
        ensures { result ≡ fault }
    {
        Refusal {
            fault,
            path,
            allowed,
        }
    }

    /// The fault.
    pub fn fault(&self) -> FileFault
        ensures { result ≡ self.now }
    {
        self.fault
    }
}

impl From<FileFault> for Refusal {
    ghost from_gives = { λ fault refusal. refusal ≡ fault };

    /// The refusal that says no more than its fault.
    fn from(fault: FileFault) -> Refusal {
        Refusal::new(fault, Path::whole(), Allowed::Unstated)
    }
}

impl From<Memory> for Refusal {
    ghost use Rattle.pldm_device.specs.declared.description_fault.FileFault.TheVariants as faults;

    ghost from_gives = { λ memory refusal. refusal ≡ faults.Memory memory };

    fn from(memory: Memory) -> Refusal {
        FileFault::Memory(memory).into()
    }
}

impl<T: Drop> From<AllocFailed<T>> for Refusal {
    ghost use Rattle.pldm_device.specs.declared.description_fault.FileFault.TheVariants as faults;

    ghost from_gives = { λ _ refusal. refusal ≡ faults.Memory out_of_memory };

    fn from(refused: AllocFailed<T>) -> Refusal {
        FileFault::Memory(refused.into()).into()
    }
}

impl From<AllocError> for Refusal {
    ghost use Rattle.pldm_device.specs.declared.description_fault.FileFault.TheVariants as faults;

    ghost from_gives = { λ _ refusal. refusal ≡ faults.Memory out_of_memory };

    fn from(refused: AllocError) -> Refusal {
        FileFault::Memory(refused.into()).into()
    }
}
