//! The requests that a tick found due: to be sent again, or given up.

ghost use Rattle.std.specs.Prelude.{◌≡◌, IfOk};
ghost use Rattle.mctp_schedule.specs.DueNumbers.{found_nothing, nothing_due};

use bumpalo::Bump;
use mctp_packet::Memory;
use pldm_requester::Due;
use std::alloc::Global;
use std::marker::Model;

/// The requests that a tick found due, by their numbers, which count the opened requests of all
/// requesters.
#[derive(Debug, Drop)]
pub struct DueRequests<'a> {
    again: &'a [u64],
    given_up: &'a [u64],
}

impl<'a> Model for DueRequests<'a> {
    ghost use Rattle.pldm_requester.specs.declared.results.Due.{Due};

    ghost Value = { Due };

    ghost view = { λ d. record {
      again = record { items = d.again.now };
      given_up = record { items = d.given_up.now };
    } };
}

impl<'a> DueRequests<'a> {
    /// No requests. It takes no memory.
    pub(crate) fn none() -> DueRequests<'a>
        ensures { result ≡ nothing_due }
    {
        DueRequests {
            again: &[],
            given_up: &[],
        }
    }

    /// The requests of these numbers, which the arena takes.
    pub(crate) fn new(arena: &'a Bump<Global>, due: &Due) -> Result<DueRequests<'a>, Memory>
        ensures { IfOk result (λ requests. requests ≡ due.now) }
    {
        Ok(DueRequests {
            again: arena.try_alloc_slice_copy(&due.again)?,
            given_up: arena.try_alloc_slice_copy(&due.given_up)?,
        })
    }

    /// Whether nothing was due.
    pub fn is_empty(&self) -> bool
        ensures { result ≡ found_nothing self.now }
    {
        self.again.is_empty() && self.given_up.is_empty()
    }

    /// Those whose packets are sent again.
    pub fn again(&self) -> &'a [u64]
        ensures { result.now ≡ self.now.again.items }
    {
        self.again
    }

    /// Those that are given up.
    pub fn given_up(&self) -> &'a [u64]
        ensures { result.now ≡ self.now.given_up.items }
    {
        self.given_up
    }
}
