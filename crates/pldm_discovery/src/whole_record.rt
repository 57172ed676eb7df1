//! A platform data record that a walk has fetched whole.

ghost use Rattle.std.specs.Prelude.{◌≡◌, ◌≤◌, length};
ghost use Rattle.pldm_discovery.specs.WholeRecords.{IsFetched};
ghost use Rattle.pldm_records.specs.Records.{handle_of};

use byteorder::{ByteOrder, LittleEndian};
use pldm_records::{Fetch, RECORD_HEADER};
use std::marker::Model;

/// A record as it was fetched: the bytes stay where the fetch put them.
#[derive(Debug, Drop)]
pub(crate) struct WholeRecord {
    fetch: Fetch,
}

impl Model for WholeRecord {
    ghost use Rattle.std.specs.Prelude.{List, ℕ};
    ghost use Rattle.pldm_discovery.specs.WholeRecords.{IsFetched};

    ghost Value = { List ℕ };

    ghost view = { λ r. r.fetch.bytes };

    ghost invariant = { λ r. IsFetched r.fetch };
}

impl WholeRecord {
    /// The record that was fetched.
    pub fn new(fetch: Fetch) -> WholeRecord
        requires { IsFetched fetch }
        ensures { result ≡ fetch.bytes }
    {
        WholeRecord { fetch }
    }

    /// Its bytes in order.
    pub fn as_slice(&self) -> &[u8]
        ensures value { result.now ≡ self.now }
        ensures header { RECORD_HEADER ≤ length self.now }
    {
        match self.fetch.record() {
            Some(bytes) => bytes,
            None => &[], // it is whole
        }
    }

    /// Its record handle.
    pub fn handle(&self) -> u32
        ensures { result ≡ handle_of self.now }
    {
        LittleEndian::read_u32(self.as_slice())
    }
}
