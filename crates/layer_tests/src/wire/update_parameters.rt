//! The firmware that a device has, bytes by hand from the standard's layout, and what the device says of itself.

use crate::expect::expect_eq;
use pldm_update::{
    Component, ComponentParameters, ComponentVersion, DeviceIdentifiers, FirmwareIdentity,
    FirmwareParameters, PackageText, UpdateAnswer, UpdateCommand, UpdateFault, read_update_answer,
    update_answer_data,
};
use pldm_wire::SUCCESS;
use std::process::Abort;

/// A set with versions "1.0" and "v2", and a component with versions "a1" and "b22".
const PARAMETERS: &[u8] = b"\
    \x03\x00\x00\x00\x01\x00\x01\x03\x01\x021.0v2\
    \x0A\x00\x34\x12\x01\
    \x07\x00\x00\x00\x01\x0220240131\
    \x08\x00\x00\x00\x02\x0320250228\
    \x08\x00\x02\x00\x00\x00\
    a1b22";

#[test]
fn parameters_are_read(rt: HostRuntime) {
    let read = read_update_answer(0x02, SUCCESS, PARAMETERS).expect(&rt, "an answer");
    expect_eq(&rt, read.number(), Some(0x02), "number");
    let UpdateAnswer::GetFirmwareParameters { parameters } = &read else {
        panic!(&rt; "no GetFirmwareParameters");
    };
    expect_eq(&rt, parameters.capabilities(), 3, "capabilities");
    let active = parameters.active();
    expect_eq(&rt, active.string_type(), 1, "ASCII");
    expect_eq(&rt, active.text(), b"1.0".as_slice(), "active set");
    let pending = parameters.pending();
    expect_eq(&rt, pending.text(), b"v2".as_slice(), "pending set");
    let written = update_answer_data(&read);
    expect_eq(&rt, written.as_slice(), PARAMETERS, "written");
}

#[test]
fn components_are_read(rt: HostRuntime) {
    let read = read_update_answer(0x02, SUCCESS, PARAMETERS).expect(&rt, "an answer");
    let UpdateAnswer::GetFirmwareParameters { parameters } = &read else {
        panic!(&rt; "no GetFirmwareParameters");
    };
    let mut components = parameters.components();
    let component = components.next().expect(&rt, "a component");
    let wanted = Component {
        classification: 10,
        identifier: 0x1234,
        index: 1,
    };
    expect_eq(&rt, component.component(), wanted, "which");
    let active = component.active();
    expect_eq(&rt, active.comparison_stamp(), 7, "stamp");
    expect_eq(&rt, active.version().string_type(), 1, "type");
    expect_eq(&rt, active.version().text(), b"a1".as_slice(), "active");
    expect_eq(&rt, active.release(), b"20240131".as_slice(), "date");
    let pending = component.pending();
    expect_eq(&rt, pending.comparison_stamp(), 8, "stamp");
    expect_eq(&rt, pending.version().string_type(), 2, "type");
    expect_eq(&rt, pending.version().text(), b"b22".as_slice(), "pending");
    expect_eq(&rt, pending.release(), b"20250228".as_slice(), "date");
    expect_eq(&rt, component.activation_methods(), 8, "activation");
    expect_eq(&rt, component.capabilities(), 2, "capabilities");
    expect_eq(&rt, components.next().is_none(), true, "no more");
}

/// The parameters that the bytes above are, made of their fields.
fn made() -> Option<FirmwareParameters> {
    let (active, pending) = (PackageText::of(1, b"1.0"), PackageText::of(1, b"v2"));
    let which = Component {
        classification: 10,
        identifier: 0x1234,
        index: 1,
    };
    let component = ComponentParameters::new(
        which,
        ComponentVersion::new(7, PackageText::of(1, b"a1"), b"20240131"),
        ComponentVersion::new(8, PackageText::of(2, b"b22"), b"20250228"),
        8,
        2,
    );
    FirmwareParameters::new(3, &active, &pending)?.with(&component)
}

#[test]
fn parameters_are_made(rt: HostRuntime) {
    let parameters = made().expect(&rt, "parameters");
    expect_eq(&rt, parameters.as_slice(), PARAMETERS, "bytes");
    // 10 bytes and the two strings of the set: 315 fit an answer, and a string has 255 at most
    let most = [0; 256];
    let long = PackageText::of(1, &most[..255]);
    let fits = FirmwareParameters::new(0, &long, &PackageText::of(1, &most[..50]));
    expect_eq(&rt, fits.is_some(), true, "315");
    let over = FirmwareParameters::new(0, &long, &PackageText::of(1, &most[..51]));
    expect_eq(&rt, over.is_none(), true, "316");
    let string = FirmwareParameters::new(0, &PackageText::of(1, &most), &PackageText::of(0, &[]));
    expect_eq(&rt, string.is_none(), true, "256 bytes of a string");
}

#[test]
fn data_that_is_no_parameters_has_a_fault(rt: HostRuntime) {
    for length in 0..PARAMETERS.len() {
        let read = read_update_answer(0x02, SUCCESS, &PARAMETERS[..length]);
        expect_eq(&rt, read.err(), Some(UpdateFault::Length), length);
    }
    let mut longer = [0; 60];
    longer[..59].copy_from_slice(PARAMETERS);
    let read = read_update_answer(0x02, SUCCESS, &longer);
    expect_eq(&rt, read.err(), Some(UpdateFault::Length), "a byte more");
    // no component, and as many bytes of strings as are stated, but more than an answer has
    let mut over = [0; 316];
    over[7] = 255;
    over[9] = 51;
    let read = read_update_answer(0x02, SUCCESS, &over);
    expect_eq(&rt, read.err(), Some(UpdateFault::Length), "316");
    over[9] = 50;
    let read = read_update_answer(0x02, SUCCESS, &over[..315]);
    expect_eq(&rt, read.is_ok(), true, "315");
}

#[test]
fn a_device_says_what_it_is(rt: HostRuntime) {
    let identity = FirmwareIdentity {
        identifiers: DeviceIdentifiers::new(0, &[0x86, 0x80]).expect(&rt, "identifiers"),
        parameters: made().expect(&rt, "parameters"),
    };
    let first = identity
        .answer(&UpdateCommand::QueryDeviceIdentifiers)
        .expect(&rt, "an answer");
    let wanted: &[u8] = b"\x06\x00\x00\x00\x01\x00\x00\x02\x00\x86\x80";
    expect_eq(
        &rt,
        update_answer_data(&first).as_slice(),
        wanted,
        "identifiers",
    );
    let second = identity
        .answer(&UpdateCommand::GetFirmwareParameters)
        .expect(&rt, "an answer");
    expect_eq(
        &rt,
        update_answer_data(&second).as_slice(),
        PARAMETERS,
        "parameters",
    );
    let other = identity.answer(&UpdateCommand::GetStatus);
    expect_eq(&rt, other.is_none(), true, "GetStatus");
}
