//! The part of a record that a GetPDR answer carries (DSP0248, "GetPDR command").

ghost use Rattle.std.specs.Prelude.{◌≡◌, ◌↔◌, IsSome, IfSome};
ghost use Rattle.pldm_wire.specs.RecordParts.{IsPart, part};

use crate::{MAX_PART_BYTES, TransferFlag};
use arrayvec::ArrayVec;
use std::marker::Model;

/// A part of a record in a GetPDR answer: its transfer flag, at most [`MAX_PART_BYTES`] bytes, and
/// the whole record's checksum exactly where it is the last of several parts (DSP0248, "GetPDR
/// command").
#[derive(Debug, PartialEq, Eq, Drop)]
pub struct RecordPart {
    flag: TransferFlag,
    bytes: ArrayVec<u8, MAX_PART_BYTES>,
    transfer_crc: Option<u8>,
}

impl Model for RecordPart {
    ghost use Rattle.pldm_wire.specs.RecordParts.{Part, IsPart, part};

    ghost Value = { Part };

    ghost view = { λ p. part p.flag p.bytes.items p.transfer_crc };

    ghost invariant = { λ p. IsPart (part p.flag p.bytes.items p.transfer_crc) };

    ghost inverse = { λ p. record {
      flag = p.flag;
      bytes = record { items = p.bytes };
      transfer_crc =
          p.transfer_crc;
    } };
}

impl RecordPart {
    ghost use Rattle.std.specs.Prelude.{◌≡◌, ◌↔◌, [], None, IsSome, IfSome};
    ghost use Rattle.pldm_wire.specs.RecordParts.{IsPart, part};
    ghost use Rattle.pldm_wire.specs.declared.transfer_flag.TransferFlag.TheVariants.{StartAndEnd};

    /// This part, where it is not too long and has a checksum exactly where its flag is
    /// [`TransferFlag::End`].
    pub fn new(flag: TransferFlag, bytes: &[u8], transfer_crc: Option<u8>) -> Option<RecordPart>
        ensures some { IsSome result ↔ IsPart (part flag bytes.now transfer_crc) }
        ensures part { IfSome result (λ made. made ≡ part flag bytes.now transfer_crc) }
    {
        if bytes.len() > MAX_PART_BYTES || transfer_crc.is_some() != flag.is_end() {
            return None;
        }
        Some(RecordPart::of(flag, bytes, transfer_crc))
    }

    /// This part, which [`RecordPart::new`] would give too: it is not too long, and has a checksum exactly where it
    /// must.
    pub(crate) fn of(flag: TransferFlag, bytes: &[u8], transfer_crc: Option<u8>) -> RecordPart
        requires { IsPart (part flag bytes.now transfer_crc) }
        ensures { result ≡ part flag bytes.now transfer_crc }
    {
        let mut made = RecordPart::empty();
        made.put(flag, bytes, transfer_crc);
        made
    }

    /// The whole of a record that has no bytes.
    pub fn empty() -> RecordPart
        ensures { result ≡ part StartAndEnd [] None }
    {
        RecordPart {
            flag: TransferFlag::StartAndEnd,
            bytes: ArrayVec::new(),
            transfer_crc: None,
        }
    }

    /// Puts this part in the place of what is here, so that no part is moved. It has to be one that [`RecordPart::new`]
    /// would give.
    pub fn put(&mut self, flag: TransferFlag, bytes: &[u8], transfer_crc: Option<u8>)
        requires { IsPart (part flag bytes.now transfer_crc) }
        ensures { self.new ≡ part flag bytes.now transfer_crc }
    {
        self.flag = flag;
        self.bytes.clear();
        let _ = self.bytes.try_extend_from_slice(bytes); // they fit
        self.transfer_crc = transfer_crc;
    }

    /// Its transfer flag.
    pub fn flag(&self) -> TransferFlag
        ensures { result ≡ self.now.flag }
    {
        self.flag
    }

    /// Its bytes in order.
    pub fn as_slice(&self) -> &[u8]
        ensures value { result.now ≡ self.now.bytes }
        ensures range { IsPart self.now }
    {
        self.bytes.as_slice()
    }

    /// The checksum of the whole record, where this is the last of several parts.
    pub fn transfer_crc(&self) -> Option<u8>
        ensures { result ≡ self.now.transfer_crc }
    {
        self.transfer_crc
    }
}
