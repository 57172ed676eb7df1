//! A firmware update package.

ghost use Rattle.std.specs.Prelude.{◌≡◌, ◌≤◌, ◌+◌, ◌↔◌, length, Ok, IfOk, IfSome, IsSome};
ghost use Rattle.std.specs.List.{find};
ghost use Rattle.pldm_update.specs.Applying.{applies_to};
ghost use Rattle.pldm_update.specs.PackageFields.{Gives};
ghost use Rattle.pldm_update.specs.PackageReading.{package_fields_at, package_of, size_at};
ghost use Rattle.pldm_update.specs.Packages.{HasPackage, Package as PackageValue, image_in};

use crate::package_device::devices_in;
use crate::package_fields::{byte_in, slice_in, u16_in, u32_in};
use crate::package_image::images_in;
use crate::package_text::text_in;
use crate::{
    DeviceIdentifiers, DeviceRecord, DeviceRecords, ImageRecord, ImageRecords, PackageFault,
    PackageText,
};
use pldm_wire::crc32;
use std::marker::Model;

/// F018878C-CB7D-4943-9800-A02F059ACA02, the identifier of a package whose header has format revision 1.
const PACKAGE_IDENTIFIER: [u8; 16] = [
    0xF0, 0x18, 0x87, 0x8C, 0xCB, 0x7D, 0x49, 0x43, 0x98, 0x00, 0xA0, 0x2F, 0x05, 0x9A, 0xCA, 0x02,
];

/// The header of a firmware update package, and the file that it stands in, borrowed (DSP0267, "Firmware update package
/// header", format revision 1).
#[derive(Debug, Drop)]
pub struct Package<'a> {
    release: &'a [u8],
    applicable_bytes: u16,
    version: PackageText<'a>,
    devices: DeviceRecords<'a>,
    images: ImageRecords<'a>,
    file: &'a [u8],
}

impl<'a> Model for Package<'a> {
    ghost use Rattle.pldm_update.specs.Packages.{Package};

    ghost Value = { Package };

    ghost view = { λ p. record {
      release = p.release.now;
      applicable_bytes = p.applicable_bytes;
      version = p.version;
      devices = p.devices;
      images = p.images;
      file = p.file.now;
    } };
}

impl<'a> Package<'a> {
    /// The package in this file, or the first fault: Length for a field that is cut short, Identifier, Revision and Value
    /// in the order of the fields; else Length for a header of another size than it states; else Checksum; else Image
    /// (DSP0267, "Firmware update package header"; the order is this profile's own). Bytes between and after the images
    /// aren't looked at, and images may share bytes.
    pub fn read(file: &'a [u8]) -> Result<Package<'a>, PackageFault>
        ensures exact { result ≡ package_of file.now }
        ensures found { IfOk result (λ p. HasPackage file.now p) }
        ensures only { (p : PackageValue) → HasPackage file.now p → result ≡ Ok p }
    {
        package_in(file)
    }

    /// When the package was released: the 13 bytes of a timestamp104 (DSP0240, "PLDM base type definitions").
    pub fn release(&self) -> &'a [u8]
        ensures { result.now ≡ self.now.release }
    {
        self.release
    }

    /// The package's version.
    pub fn version(&self) -> &PackageText<'a>
        ensures { result.now ≡ self.now.version }
    {
        &self.version
    }

    /// The devices that it is for.
    pub fn devices(&self) -> DeviceRecords<'a>
        ensures { result ≡ self.now.devices }
    {
        self.devices.again()
    }

    /// The first record that is for a device with these identifiers; `None` where none is. Which images are for it, its
    /// `applicable` says (DSP0267, "Firmware device identification records").
    pub fn record_for(&self, identifiers: &DeviceIdentifiers) -> Option<DeviceRecord<'a>>
        ensures { result ≡ find (applies_to identifiers.now) self.now.devices }
    {
        for device in self.devices() {
            if device.applies_to(identifiers) {
                return Some(device);
            }
        }
        None
    }

    /// What it says of its images.
    pub fn images(&self) -> ImageRecords<'a>
        ensures { result ≡ self.now.images }
    {
        self.images.again()
    }

    /// The bytes of an image in the file, which has them where the image is one of this package.
    pub fn image(&self, image: &ImageRecord<'_>) -> Option<&'a [u8]>
        ensures some { IsSome result ↔ image.now.offset + image.now.size ≤ length self.now.file }
        ensures bytes { IfSome result (λ bytes. bytes.now ≡ image_in image.now self.now.file) }
    {
        let offset = image.offset() as usize;
        let size = image.size() as usize;
        if self.file.len() < offset + size {
            return None;
        }
        let (_, rest) = self.file.split_at(offset);
        let (bytes, _) = rest.split_at(size);
        Some(bytes)
    }
}

/// As `Package::read`, check by check.
#[tactic(auto, unfolding(crate::specs::PackageFields::and_then, crate::specs::PackageFields::refused))]
fn package_in(file: &[u8]) -> Result<Package<'_>, PackageFault>
    ensures { result ≡ package_of file.now }
{
    let (size, rest) = size_in(file)?;
    let (package, rest) = package_fields_in(file, rest)?;
    let (checksum, rest) = u32_in(rest)?;
    if rest.len() + usize::from(size) != file.len() {
        return Err(PackageFault::Length);
    }
    let (checked, _) = file.split_at(usize::from(size.saturating_sub(4)));
    if checksum != crc32(checked) {
        return Err(PackageFault::Checksum);
    }
    if !package.images.all_placed(size, file.len()) {
        return Err(PackageFault::Image);
    }
    Ok(package)
}

/// The size of the header, after the identifier and the revision.
#[tactic(auto, unfolding(crate::specs::PackageFields::and_then, crate::specs::PackageFields::refused, crate::specs::PackageReading::size_at))]
fn size_in(file: &[u8]) -> Result<(u16, &[u8]), PackageFault>
    ensures { Gives (λ x. (x.0, x.1.now)) result (size_at file.now) }
{
    let (identifier, rest) = slice_in(16, file)?;
    if identifier != PACKAGE_IDENTIFIER.as_slice() {
        return Err(PackageFault::Identifier);
    }
    let (revision, rest) = byte_in(rest)?;
    if revision != 1 {
        return Err(PackageFault::Revision);
    }
    u16_in(rest)
}

/// The fields between the header's size and its checksum.
#[tactic(auto, unfolding(crate::specs::PackageFields::and_then, crate::specs::PackageFields::refused, crate::specs::PackageReading::package_fields_at))]
fn package_fields_in<'a>(
    file: &'a [u8],
    bytes: &'a [u8],
) -> Result<(Package<'a>, &'a [u8]), PackageFault>
    ensures { Gives (λ x. (x.0, x.1.now)) result (package_fields_at file.now bytes.now) }
{
    let (release, rest) = slice_in(13, bytes)?;
    let (bits, rest) = u16_in(rest)?;
    if bits % 8 != 0 {
        return Err(PackageFault::Value);
    }
    let applicable_bytes = bits / 8;
    let (version, rest) = text_in(rest)?;
    let (count, rest) = byte_in(rest)?;
    let (devices, rest) = devices_in(count, applicable_bytes, rest)?;
    let (count, rest) = u16_in(rest)?;
    let (images, rest) = images_in(count, rest)?;
    let package = Package {
        release,
        applicable_bytes,
        version,
        devices,
        images,
        file,
    };
    Ok((package, rest))
}
