//! The devices that a package is for.

ghost use Rattle.std.specs.Prelude.{◌≡◌, ◌∷◌, [], IfNone, IfSome};
ghost use Rattle.std.specs.Iterator.{YieldsFirst, item_count};
ghost use Rattle.pldm_update.specs.Applying.{applies_to};
ghost use Rattle.pldm_update.specs.PackageFields.{Gives, many_at};
ghost use Rattle.pldm_update.specs.PackageReading.{device_at};

use crate::package_descriptor::descriptors_in;
use crate::package_fields::{byte_in, slice_in, u16_in, u32_in};
use crate::{Descriptors, DeviceIdentifiers, PackageFault, PackageText};
use std::marker::Model;

/// A record of devices that a package is for, borrowed (DSP0267, "Firmware device ID records").
#[derive(Debug, Drop)]
pub struct DeviceRecord<'a> {
    option_flags: u32,
    version: PackageText<'a>,
    applicable: &'a [u8],
    descriptors: Descriptors<'a>,
    package_data: &'a [u8],
}

impl<'a> Model for DeviceRecord<'a> {
    ghost use Rattle.pldm_update.specs.Packages.{Device};

    ghost Value = { Device };

    ghost view = { λ d. record {
      option_flags = d.option_flags;
      version = d.version;
      applicable = d.applicable.now;
      descriptors = d.descriptors;
      package_data = d.package_data.now;
    } };
}

impl<'a> DeviceRecord<'a> {
    /// The device update option flags.
    pub fn option_flags(&self) -> u32
        ensures { result ≡ self.now.option_flags }
    {
        self.option_flags
    }

    /// The version of the set of its images.
    pub fn version(&self) -> &PackageText<'a>
        ensures { result.now ≡ self.now.version }
    {
        &self.version
    }

    /// Which images of the package are for the device: bit n % 8 of byte n / 8 for image n.
    pub fn applicable(&self) -> &'a [u8]
        ensures { result.now ≡ self.now.applicable }
    {
        self.applicable
    }

    /// Its descriptors, one at least, the initial one first.
    pub fn descriptors(&self) -> Descriptors<'a>
        ensures { result ≡ self.now.descriptors }
    {
        self.descriptors.again()
    }

    /// Whether the record is for a device with these identifiers: each of its descriptors is among them, the same
    /// type and the same bytes (DSP0267, "Firmware device identification records").
    pub fn applies_to(&self, identifiers: &DeviceIdentifiers) -> bool
        ensures { result ≡ applies_to identifiers.now self.now }
    {
        for descriptor in self.descriptors() {
            if !identifiers.has(&descriptor) {
                return false;
            }
        }
        true
    }

    /// The package data for the device.
    pub fn package_data(&self) -> &'a [u8]
        ensures { result.now ≡ self.now.package_data }
    {
        self.package_data
    }
}

/// Goes over the records of devices of a package, in their order.
#[derive(Debug, Drop)]
pub struct DeviceRecords<'a> {
    count: u8,
    applicable_bytes: u16,
    bytes: &'a [u8],
}

impl<'a> Model for DeviceRecords<'a> {
    ghost use Rattle.std.specs.Prelude.{List, IsOk};
    ghost use Rattle.pldm_update.specs.PackageFields.{items_of, many_at};
    ghost use Rattle.pldm_update.specs.PackageReading.{device_at};
    ghost use Rattle.pldm_update.specs.Packages.{Device};

    ghost Value = { List Device };

    ghost view = { λ d. items_of (many_at (device_at d.applicable_bytes) d.count d.bytes.now) };

    ghost invariant = { λ d. IsOk (many_at (device_at d.applicable_bytes) d.count d.bytes.now) };
}

impl<'a> DeviceRecords<'a> {
    /// The same once more.
    pub(crate) fn again(&self) -> DeviceRecords<'a>
        ensures { result ≡ self.now }
    {
        DeviceRecords {
            count: self.count,
            applicable_bytes: self.applicable_bytes,
            bytes: self.bytes,
        }
    }

    /// The next one, which the others then follow.
    fn take_first(&mut self) -> Option<DeviceRecord<'a>>
        ensures some { IfSome result (λ d. self.old ≡ d ∷ self.new) }
        ensures none { IfNone result (self.old ≡ []) }
        ensures same { IfNone result (self.new ≡ self.old) }
    {
        if self.count == 0 {
            return None;
        }
        match device_in(self.applicable_bytes, self.bytes) {
            Ok((device, rest)) => {
                self.count -= 1;
                self.bytes = rest;
                Some(device)
            }
            Err(_) => None,
        }
    }
}

impl<'a> Iterator for DeviceRecords<'a> {
    type Item = DeviceRecord<'a>;

    ghost next_gives = { YieldsFirst (λ devices. devices) };

    ghost remaining = { item_count (λ devices. devices) };

    fn next(&mut self) -> Option<DeviceRecord<'a>> {
        self.take_first()
    }
}

/// A record of devices, which says itself how long it is.
#[tactic(auto, unfolding(crate::specs::PackageFields::and_then, crate::specs::PackageFields::refused, crate::specs::PackageReading::device_at))]
fn device_in(applicable_bytes: u16, bytes: &[u8]) -> Result<(DeviceRecord<'_>, &[u8]), PackageFault>
    ensures { Gives (λ x. (x.0, x.1.now)) result (device_at applicable_bytes bytes.now) }
{
    let (size, rest) = u16_in(bytes)?;
    let (count, rest) = byte_in(rest)?;
    let (option_flags, rest) = u32_in(rest)?;
    let (string_type, rest) = byte_in(rest)?;
    let (text_count, rest) = byte_in(rest)?;
    let (data_count, rest) = u16_in(rest)?;
    if count == 0 {
        return Err(PackageFault::Value);
    }
    let (applicable, rest) = slice_in(applicable_bytes.into(), rest)?;
    let (text, rest) = slice_in(text_count.into(), rest)?;
    let (descriptors, rest) = descriptors_in(count, rest)?;
    let (package_data, rest) = slice_in(data_count.into(), rest)?;
    if rest.len() + usize::from(size) != bytes.len() {
        return Err(PackageFault::Length);
    }
    let device = DeviceRecord {
        option_flags,
        version: PackageText::of(string_type, text),
        applicable,
        descriptors,
        package_data,
    };
    Ok((device, rest))
}

/// So many records of devices, one after another.
pub(crate) fn devices_in(
    count: u8,
    applicable_bytes: u16,
    bytes: &[u8],
) -> Result<(DeviceRecords<'_>, &[u8]), PackageFault>
    ensures { Gives (λ x. (x.0, x.1.now)) result (many_at (device_at applicable_bytes) count bytes.now) }
{
    let mut rest = bytes;
    for _ in 0..count {
        let (_, after) = device_in(applicable_bytes, rest)?;
        rest = after;
    }
    let devices = DeviceRecords {
        count,
        applicable_bytes,
        bytes,
    };
    Ok((devices, rest))
}
