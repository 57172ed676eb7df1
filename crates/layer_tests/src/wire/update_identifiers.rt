//! What identifies a firmware device, and the record of a package that is for it, bytes by hand from the standard's
//! layouts.

use crate::expect::expect_eq;
use crate::wire::update_package::PACKAGE;
use pldm_update::{
    DeviceIdentifiers, Package, UpdateAnswer, UpdateFault, read_update_answer, update_answer_data,
};
use pldm_wire::SUCCESS;
use std::process::Abort;

/// Fourteen bytes of descriptors, two of them: IANA enterprise 161, and a PCI vendor.
const IDENTIFIERS: &[u8] = b"\
    \x0E\x00\x00\x00\x02\
    \x01\x00\x04\x00\xA1\x00\x00\x00\
    \x00\x00\x02\x00\x86\x80";

#[test]
fn identifiers_are_read(rt: HostRuntime) {
    let read = read_update_answer(0x01, SUCCESS, IDENTIFIERS).expect(&rt, "an answer");
    expect_eq(&rt, read.number(), Some(0x01), "number");
    let UpdateAnswer::QueryDeviceIdentifiers { identifiers } = &read else {
        panic!(&rt; "no QueryDeviceIdentifiers");
    };
    let mut descriptors = identifiers.descriptors();
    let first = descriptors.next().expect(&rt, "the initial descriptor");
    expect_eq(&rt, first.kind(), 1, "IANA enterprise");
    expect_eq(&rt, first.content(), [0xA1, 0, 0, 0].as_slice(), "number");
    let second = descriptors.next().expect(&rt, "a descriptor");
    expect_eq(&rt, second.kind(), 0, "PCI vendor");
    expect_eq(&rt, second.content(), [0x86, 0x80].as_slice(), "vendor");
    expect_eq(&rt, descriptors.next().is_none(), true, "no more");
    let written = update_answer_data(&read);
    expect_eq(&rt, written.as_slice(), IDENTIFIERS, "written");
}

#[test]
fn identifiers_are_made(rt: HostRuntime) {
    let initial = DeviceIdentifiers::new(1, &[0xA1, 0, 0, 0]).expect(&rt, "the initial one");
    let both = initial.with(0, &[0x86, 0x80]).expect(&rt, "two");
    expect_eq(&rt, both.as_slice(), IDENTIFIERS, "bytes");
    // 5 bytes, 4 for each descriptor, and what they have: 315 fit an answer
    let most = [0; 306];
    let whole = DeviceIdentifiers::new(2, &most).expect(&rt, "all that fits");
    expect_eq(&rt, whole.as_slice().len(), 315, "all");
    expect_eq(&rt, whole.with(0, &[]).is_none(), true, "no room");
    expect_eq(&rt, initial.with(2, &most[..298]).is_some(), true, "fits");
    expect_eq(
        &rt,
        initial.with(2, &most[..299]).is_none(),
        true,
        "too long",
    );
    expect_eq(
        &rt,
        DeviceIdentifiers::new(2, &[0; 307]).is_none(),
        true,
        "307",
    );
}

/// Data that is no answer to QueryDeviceIdentifiers, and why.
const NO_IDENTIFIERS: &[(&[u8], UpdateFault)] = &[
    (b"", UpdateFault::Length),
    (b"\x06\x00\x00\x00", UpdateFault::Length),
    (
        b"\x06\x00\x00\x00\x01\x00\x00\x02\x00\x86",
        UpdateFault::Length,
    ),
    (
        b"\x05\x00\x00\x00\x01\x00\x00\x02\x00\x86\x80",
        UpdateFault::Length,
    ),
    (
        b"\x06\x00\x00\x00\x02\x00\x00\x02\x00\x86\x80",
        UpdateFault::Length,
    ),
    (
        b"\x07\x00\x00\x00\x01\x00\x00\x02\x00\x86\x80\x00",
        UpdateFault::Length,
    ),
    (
        b"\x06\x00\x00\x00\x01\x00\x00\x03\x00\x86\x80",
        UpdateFault::Length,
    ),
    (b"\x00\x00\x00\x00\x00", UpdateFault::Value),
    (
        b"\x06\x00\x00\x00\x00\x00\x00\x02\x00\x86\x80",
        UpdateFault::Value,
    ),
];

#[test]
fn data_that_is_no_identifiers_has_a_fault(rt: HostRuntime) {
    for (data, fault) in NO_IDENTIFIERS {
        let read = read_update_answer(0x01, SUCCESS, data);
        expect_eq(&rt, read.err(), Some(*fault), data);
    }
}

/// A device with a descriptor and then maybe another one.
fn device(kind: u16, content: &[u8], other: Option<&[u8]>) -> Option<DeviceIdentifiers> {
    let first = DeviceIdentifiers::new(kind, content)?;
    match other {
        Some(bytes) => first.with(2, bytes),
        None => Some(first),
    }
}

#[test]
fn a_package_has_a_record_for_a_device(rt: HostRuntime) {
    let package = Package::read(&PACKAGE).expect(&rt, "a package");
    let iana: &[u8] = &[0xA1, 0, 0, 0];
    // the record's descriptors are IANA enterprise 161, and type 2 with two bytes
    let both = device(1, iana, Some(&[0x55, 0x66])).expect(&rt, "a device");
    let record = package.record_for(&both).expect(&rt, "a record");
    expect_eq(&rt, record.version().text(), b"s1".as_slice(), "its images");
    let more = both.with(0, &[0x86, 0x80]).expect(&rt, "a device");
    expect_eq(&rt, package.record_for(&more).is_some(), true, "one more");
    let less = device(1, iana, None).expect(&rt, "a device");
    expect_eq(&rt, package.record_for(&less).is_none(), true, "one less");
    let other = device(1, iana, Some(&[0x55, 0x67])).expect(&rt, "a device");
    expect_eq(&rt, package.record_for(&other).is_none(), true, "bytes");
    let kind = device(0, iana, Some(&[0x55, 0x66])).expect(&rt, "a device");
    expect_eq(&rt, package.record_for(&kind).is_none(), true, "type");
}
