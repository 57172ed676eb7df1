//! A firmware update package, bytes by hand from the standard's layout; the checksums are of another program.

use crate::expect::expect_eq;
use pldm_update::{Package, PackageFault};
use std::process::Abort;

/// A header of 101 bytes, and an image of four.
pub const PACKAGE: [u8; 105] = *b"\
    \xF0\x18\x87\x8C\xCB\x7D\x49\x43\x98\x00\xA0\x2F\x05\x9A\xCA\x02\
    \x01\x65\x00\
    \x01\x02\x03\x04\x05\x06\x07\x08\x09\x0A\x0B\x0C\x0D\
    \x08\x00\x01\x03p10\
    \x01\x1F\x00\x02\x01\x00\x00\x00\x01\x02\x03\x00\x01s1\
    \x01\x00\x04\x00\xA1\x00\x00\x00\x02\x00\x02\x00\x55\x66abc\
    \x01\x00\
    \x0A\x00\x34\x12\x07\x00\x00\x00\x01\x00\x08\x00\x65\x00\x00\x00\x04\x00\x00\x00\x01\x02v2\
    \x96\x63\x5A\x0B\
    \xDE\xAD\xBE\xEF";

#[test]
fn package_is_read(rt: HostRuntime) {
    let package = Package::read(&PACKAGE).expect(&rt, "a package");
    expect_eq(&rt, package.release(), &PACKAGE[19..32], "release");
    expect_eq(&rt, package.version().string_type(), 1, "ASCII");
    expect_eq(&rt, package.version().text(), b"p10".as_slice(), "version");
    let mut devices = package.devices();
    let device = devices.next().expect(&rt, "a device");
    expect_eq(&rt, device.option_flags(), 1, "flags");
    expect_eq(&rt, device.applicable(), [1].as_slice(), "bits");
    expect_eq(
        &rt,
        device.version().text(),
        b"s1".as_slice(),
        "set version",
    );
    expect_eq(&rt, device.package_data(), b"abc".as_slice(), "data");
    let mut descriptors = device.descriptors();
    let first = descriptors.next().expect(&rt, "the initial descriptor");
    expect_eq(&rt, first.kind(), 1, "IANA enterprise");
    expect_eq(&rt, first.content(), [0xA1, 0, 0, 0].as_slice(), "number");
    let second = descriptors.next().expect(&rt, "a descriptor");
    expect_eq(&rt, second.content(), [0x55, 0x66].as_slice(), "bytes");
    expect_eq(&rt, descriptors.next().is_none(), true, "no more");
    expect_eq(&rt, devices.next().is_none(), true, "no more");
}

#[test]
fn image_is_found(rt: HostRuntime) {
    let package = Package::read(&PACKAGE).expect(&rt, "a package");
    let mut images = package.images();
    let image = images.next().expect(&rt, "an image");
    expect_eq(&rt, image.classification(), 10, "classification");
    expect_eq(&rt, image.identifier(), 0x1234, "identifier");
    expect_eq(&rt, image.comparison_stamp(), 7, "stamp");
    expect_eq(&rt, image.options(), 1, "options");
    expect_eq(&rt, image.activation_methods(), 8, "activation");
    expect_eq(&rt, image.offset(), 101, "offset");
    expect_eq(&rt, image.size(), 4, "size");
    expect_eq(&rt, image.version().text(), b"v2".as_slice(), "version");
    let bytes = package.image(&image).expect(&rt, "its bytes");
    expect_eq(&rt, bytes, [0xDE, 0xAD, 0xBE, 0xEF].as_slice(), "image");
    expect_eq(&rt, images.next().is_none(), true, "no more");
}

/// The fault of the package with another byte at a place.
fn fault_with(place: usize, byte: u8) -> Option<PackageFault> {
    let mut file = PACKAGE;
    if place < file.len() {
        file[place] = byte;
    }
    Package::read(&file).err()
}

#[test]
fn faults_of_packages(rt: HostRuntime) {
    expect_eq(&rt, fault_with(0, 0), Some(PackageFault::Identifier), "0");
    expect_eq(&rt, fault_with(16, 2), Some(PackageFault::Revision), "16");
    expect_eq(&rt, fault_with(17, 0x66), Some(PackageFault::Length), "17");
    expect_eq(&rt, fault_with(32, 7), Some(PackageFault::Value), "32");
    expect_eq(&rt, fault_with(40, 0x20), Some(PackageFault::Length), "40");
    expect_eq(&rt, fault_with(42, 0), Some(PackageFault::Value), "42");
    expect_eq(&rt, fault_with(97, 0), Some(PackageFault::Checksum), "97");
    let cut = Package::read(&PACKAGE[..50]).err();
    expect_eq(&rt, cut, Some(PackageFault::Length), "cut short");
    // the image is one byte longer, and the checksum fits
    let mut file = PACKAGE;
    file[89] = 5;
    file[97..101].copy_from_slice(&[0x08, 0x63, 0xF0, 0xC7]);
    let fault = Package::read(&file).err();
    expect_eq(&rt, fault, Some(PackageFault::Image), "past the end");
}
