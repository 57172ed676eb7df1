//! A platform data record: its handle, its change number, and data that fits (DSP0248, "Common PDR format").

ghost use Rattle.std.specs.Prelude.{◌≡◌, IfSome, IsTrue, is_some};
ghost use Rattle.pldm_pdr.specs.Records.{data_fits, platform_record};

use crate::RecordData;
use crate::fitting::data_fits;
use std::marker::Model;

/// A platform data record whose data fits: numbers their sizes, how many states there are, and whole
/// names (DSP0248, "Common PDR format").
#[derive(Debug, PartialEq, Eq, Drop)]
pub struct Record {
    handle: u32,
    change_number: u16,
    contents: RecordData,
}

impl Model for Record {
    ghost use Rattle.std.specs.Prelude.{IsTrue};
    ghost use Rattle.pldm_pdr.specs.Records.{PlatformRecord, data_fits};

    ghost Value = { PlatformRecord };

    ghost view = { λ r. record { handle = r.handle; change_number = r.change_number; contents = r.contents } };

    ghost invariant = { λ r. IsTrue (data_fits r.contents) };

    ghost inverse = { λ r. record { handle = r.handle; change_number = r.change_number; contents = r.contents } };
}

impl Record {
    /// The record of this handle, change number and data, where the data fits: each number its data size, each range
    /// field its format; a composite sensor or effecter has one to eight sets, each in 1 to 32 bytes;
    /// names are whole.
    pub fn new(handle: u32, change_number: u16, contents: RecordData) -> Option<Record>
        ensures test { is_some result ≡ data_fits contents }
        ensures record { IfSome result (λ made. made ≡ platform_record handle change_number contents) }
    {
        if data_fits(&contents) {
            Some(Record::of(handle, change_number, contents))
        } else {
            None
        }
    }

    /// The record of this handle, change number and data, which fits.
    pub(crate) fn of(handle: u32, change_number: u16, contents: RecordData) -> Record
        requires { IsTrue (data_fits contents) }
        ensures { result ≡ platform_record handle change_number contents }
    {
        Record {
            handle,
            change_number,
            contents,
        }
    }

    /// Its record handle.
    pub fn handle(&self) -> u32
        ensures { result ≡ self.now.handle }
    {
        self.handle
    }

    /// Its change number.
    pub fn change_number(&self) -> u16
        ensures { result ≡ self.now.change_number }
    {
        self.change_number
    }

    /// What it holds after its header.
    pub fn contents(&self) -> &RecordData
        ensures value { result.now ≡ self.now.contents }
        ensures fits { IsTrue (data_fits self.now.contents) }
    {
        &self.contents
    }
}
