//! What identifies a firmware device.

ghost use Rattle.std.specs.Prelude.{◌≡◌, ◌+◌, ◌≤◌, ◌++◌, ◌∷◌, [], ◌↔◌, length, IsSome, IfSome};
ghost use Rattle.pldm_update.specs.DataParts.{parts_bytes};
ghost use Rattle.pldm_update.specs.Applying.{is_among};
ghost use Rattle.pldm_update.specs.Identifiers.{IsIdentifiers, descriptor, identifiers_bytes, parts_with};
ghost use Rattle.pldm_update.specs.IdentifiersReading.{identifiers_at, or_field_fault};
ghost use Rattle.pldm_update.specs.PackageFields.{Gives};

use crate::field::{Field, data_of};
use crate::package_descriptor::descriptors_in;
use crate::package_fields::{byte_in, u32_in};
use crate::{Descriptor, Descriptors, MAX_UPDATE_DATA, PackageFault, UpdateData, UpdateFault};
use std::marker::Model;

/// The descriptors that identify a firmware device, the initial one first: one at least, and as many as one answer
/// holds, which is [`MAX_UPDATE_DATA`] bytes, 5 of them before the first, and 4 more than its bytes for each
/// (DSP0267, "QueryDeviceIdentifiers command").
#[derive(Debug, PartialEq, Eq, Drop)]
pub struct DeviceIdentifiers {
    bytes: UpdateData,
}

impl Model for DeviceIdentifiers {
    ghost use Rattle.std.specs.Prelude.{List};
    ghost use Rattle.std.proofs.Common.{sym};
    ghost use Rattle.pldm_update.specs.Identifiers.{IsKept, identifiers_bytes};
    ghost use Rattle.pldm_update.specs.IdentifiersReading.{descriptors_read, identifiers_at};
    ghost use Rattle.pldm_update.specs.Packages.{Descriptor};

    ghost Value = { List Descriptor };

    ghost view = { λ d. descriptors_read (identifiers_at d.bytes.items) };

    ghost invariant = { λ d. IsKept (descriptors_read (identifiers_at d.bytes.items)) d.bytes.items };

    ghost inverse = { λ ds. record { bytes = record { items = identifiers_bytes ds } } };

    ghost inverse_ok = { λ d h i. record { bytes = record { items = sym h.0 i } } };
}

impl DeviceIdentifiers {
    /// The initial descriptor alone: its type (0 PCI vendor, 1 IANA enterprise, 2 UUID, for example; any number is
    /// taken) and its bytes. `None` where these don't fit one answer.
    pub fn new(kind: u16, content: &[u8]) -> Option<DeviceIdentifiers>
        ensures some { IsSome result ↔ IsIdentifiers (descriptor kind content.now ∷ []) }
        ensures value { IfSome result (λ made. made ≡ descriptor kind content.now ∷ []) }
    {
        if content.len() > MAX_UPDATE_DATA - 9 {
            return None;
        }
        Some(DeviceIdentifiers {
            bytes: written(1, &[], kind, content),
        })
    }

    /// These descriptors and one more after them. `None` where they don't fit one answer.
    pub fn with(&self, kind: u16, content: &[u8]) -> Option<DeviceIdentifiers>
        ensures some { IsSome result ↔ IsIdentifiers (self.now ++ descriptor kind content.now ∷ []) }
        ensures value { IfSome result (λ made. made ≡ self.now ++ descriptor kind content.now ∷ []) }
    {
        let kept = self.bytes.as_slice();
        let count = kept[4];
        if count == u8::MAX || kept.len() + 4 + content.len() > MAX_UPDATE_DATA {
            return None;
        }
        Some(DeviceIdentifiers {
            bytes: written(count + 1, &kept[5..], kind, content),
        })
    }

    /// The descriptors that this data of an answer is, or the first fault: Length for a field that is cut short, for
    /// another length of the descriptors than is stated, and for more than [`MAX_UPDATE_DATA`] bytes; Value for no
    /// descriptor (DSP0267, "QueryDeviceIdentifiers command"; the order is this profile's own).
    pub(crate) fn read(bytes: &[u8]) -> Result<DeviceIdentifiers, UpdateFault>
        ensures { result ≡ or_field_fault (identifiers_at bytes.now) }
    {
        match identifiers_in(bytes) {
            Ok(_) => Ok(DeviceIdentifiers {
                bytes: data_of(&[Field::Bytes(bytes)]),
            }),
            Err(PackageFault::Value) => Err(UpdateFault::Value),
            Err(_) => Err(UpdateFault::Length),
        }
    }

    /// The descriptors, the initial one first.
    pub fn descriptors(&self) -> Descriptors<'_>
        ensures { result ≡ self.now }
    {
        match identifiers_in(self.bytes.as_slice()) {
            Ok(descriptors) => descriptors,
            Err(_) => unreachable!(),
        }
    }

    /// Whether a descriptor is among them: the same type and the same bytes.
    pub fn has(&self, descriptor: &Descriptor<'_>) -> bool
        ensures { result ≡ is_among self.now descriptor.now }
    {
        for own in self.descriptors() {
            if descriptor.is_same(&own) {
                return true;
            }
        }
        false
    }

    /// The same once more.
    pub(crate) fn again(&self) -> DeviceIdentifiers
        ensures { result ≡ self.now }
    {
        DeviceIdentifiers {
            bytes: data_of(&[Field::Bytes(self.bytes.as_slice())]),
        }
    }

    /// The data of an answer with them: the descriptors' length, how many there are, and they, numbers with their
    /// lowest byte first.
    pub fn as_slice(&self) -> &[u8]
        ensures bytes { result.now ≡ identifiers_bytes self.now }
        ensures range { IsIdentifiers self.now }
    {
        self.bytes.as_slice()
    }
}

/// The data of so many descriptors: the bytes of the first ones, and the last one.
fn written<'a>(count: u8, first: &'a [u8], kind: u16, last: &'a [u8]) -> UpdateData
    requires { length first.now + 9 + length last.now ≤ MAX_UPDATE_DATA }
    ensures { result.items ≡ parts_bytes (parts_with count first.now kind last.now) }
{
    data_of(&[
        Field::U32((first.len() + 4 + last.len()) as u32),
        Field::U8(count),
        Field::Bytes(first),
        Field::U16(kind),
        Field::U16(last.len() as u16),
        Field::Bytes(last),
    ])
}

/// The descriptors that this data is, or the first fault.
#[tactic(auto, unfolding(crate::specs::PackageFields::and_then, crate::specs::PackageFields::refused, crate::specs::IdentifiersReading::identifiers_at))]
fn identifiers_in(bytes: &[u8]) -> Result<Descriptors<'_>, PackageFault>
    ensures { Gives (λ descriptors. descriptors) result (identifiers_at bytes.now) }
{
    let (size, rest) = u32_in(bytes)?;
    let (count, rest) = byte_in(rest)?;
    if size as usize != rest.len() || bytes.len() > MAX_UPDATE_DATA {
        return Err(PackageFault::Length);
    }
    if count == 0 {
        return Err(PackageFault::Value);
    }
    let (descriptors, rest) = descriptors_in(count, rest)?;
    if !rest.is_empty() {
        return Err(PackageFault::Length);
    }
    Ok(descriptors)
}
