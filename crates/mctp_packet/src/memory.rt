//! The error of calls that find no memory, or that would pass a limit.

ghost use Rattle.std.specs.Prelude.{◌≡◌, ◌≤◌};
ghost use Rattle.mctp_packet.specs.Memories.{out_of_memory};

use std::alloc::{AllocError, AllocFailed};
use thiserror::Error;

/// No memory was available: a growth was refused, or a value holds as much as it may.
///
/// It is made from what the allocator refused, by `?` or `From`, or at a limit, by
/// [`Memory::at_limit`].
#[derive(Clone, Copy, Debug, PartialEq, Eq, Error)]
#[error("out of memory")]
pub struct Memory(());

impl Memory {
    /// No room in a value that holds `count` and may hold at most `limit`.
    pub fn at_limit(count: usize, limit: usize) -> Memory
        requires { limit ≤ count }
        ensures { result ≡ out_of_memory }
    {
        Memory(())
    }
}

impl From<AllocError> for Memory {
    ghost from_gives = { λ _ e. e ≡ out_of_memory };

    fn from(_error: AllocError) -> Memory {
        Memory(())
    }
}

impl<T: Drop> From<AllocFailed<T>> for Memory {
    ghost from_gives = { λ _ e. e ≡ out_of_memory };

    fn from(_failed: AllocFailed<T>) -> Memory {
        Memory(())
    }
}
