//! The repository of platform data records (DSP0248, "PDR Repository").

ghost use Rattle.std.specs.Prelude.{◌≡◌, ◌++◌, [], ◌∷◌, ◌<◌, None, length, option_copied, slice_get, OnErr, OnOk, OnSome};
ghost use Rattle.pldm_records.specs.Records.{handle_at, handle_of, largest_record_size, position_asked, position_of, repository_size};

use crate::limits::{FIRST_RECORD, MAX_RECORDS, NO_RECORD};
use crate::record::Record;
use mctp_packet::Memory;
use std::alloc::Global;
use std::collections::BTreeMap;
use std::marker::Model;

/// Records in their order, at most [`MAX_RECORDS`], no two with one record handle.
#[derive(Debug, Drop)]
pub struct Repository {
    records: Vec<Record>,
    // where the record with a handle is
    positions: BTreeMap<u32, usize>,
    // the bytes of all records, and of the largest
    size: u32,
    largest: u32,
}

impl Model for Repository {
    ghost use Rattle.std.specs.Prelude.{List, ℕ};
    ghost use Rattle.pldm_records.specs.Repositories.{IsIndexed};

    ghost Value = { List (List ℕ) };

    ghost view = { λ r. r.records.items };

    ghost invariant = { λ r. IsIndexed r.records.items r.positions.entries r.size r.largest };
}

impl Repository {
    /// A repository without records.
    pub fn new(alloc: Global) -> Repository
        ensures { result ≡ [] }
    {
        Repository {
            records: Vec::new(alloc),
            positions: BTreeMap::new(alloc),
            size: 0,
            largest: 0,
        }
    }

    /// The number of records.
    pub fn count(&self) -> u32
        ensures { result ≡ length self.now }
    {
        self.records.len() as u32
    }

    /// The bytes of all records.
    pub fn size(&self) -> u32
        ensures { result ≡ repository_size self.now }
    {
        self.size
    }

    /// The bytes of the largest record, 0 where there is none.
    pub fn largest(&self) -> u32
        ensures { result ≡ largest_record_size self.now }
    {
        self.largest
    }

    /// The record at this position.
    pub fn get(&self, position: usize) -> Option<&Record>
        ensures value { option_copied result ≡ slice_get self.now position }
        ensures within { OnSome result (position < MAX_RECORDS) }
    {
        self.records.get(position)
    }

    /// Where the record with this handle is, if there is one.
    pub fn position_of(&self, handle: u32) -> Option<usize>
        ensures { result ≡ position_of handle self.now }
    {
        self.positions.get(&handle).copied()
    }

    /// Where the record is that a command asks for by this handle: 0 asks for the first.
    pub fn position_asked(&self, handle: u32) -> Option<usize>
        ensures { result ≡ position_asked handle self.now }
    {
        if handle == FIRST_RECORD {
            Some(0)
        } else {
            self.position_of(handle)
        }
    }

    /// The handle of the record at this position, 0 where there is none.
    pub fn handle_at(&self, position: usize) -> u32
        ensures { result ≡ handle_at position self.now }
    {
        match self.get(position) {
            Some(record) => record.handle(),
            None => NO_RECORD,
        }
    }

    /// Adds a record at the end. After Memory the repository is as before.
    pub fn push(&mut self, pdr: Record) -> Result<(), Memory>
        requires room { length self.old < MAX_RECORDS }
        requires fresh { position_of (handle_of pdr) self.old ≡ None }
        ensures added { OnOk result (self.new ≡ self.old ++ pdr ∷ []) }
        ensures unchanged { OnErr result (self.new ≡ self.old) }
    {
        self.records.reserve(1)?;
        let bytes = pdr.as_slice().len() as u32;
        let _ = self.positions.insert(pdr.handle(), self.records.len())?;
        let _ = self.records.push(pdr); // there is room for it
        self.size += bytes;
        self.largest = self.largest.max(bytes);
        Ok(())
    }
}
