//! Frames on I3C, written by hand from the text of the standard.

use crate::expect::expect_eq;
use mctp_i2c::i3c::{Direction, FrameBytes, I3cFault, frame, read};
use mctp_i2c::{DynamicAddress, LengthFault};
use std::process::Abort;

/// A packet from endpoint 8 to endpoint 9, a request for the TID, and its PEC in a write to 0x30.
const FRAME: [u8; 9] = [0x01, 0x09, 0x08, 0xC8, 0x01, 0x80, 0x00, 0x02, 0x2B];

/// A number, and whether it is a dynamic address.
const ADDRESSES: &[(u8, bool)] = &[(0x00, true), (0x7F, true), (0x80, false), (0xFF, false)];

#[test]
fn dynamic_addresses(rt: HostRuntime) {
    for (number, is_one) in ADDRESSES {
        expect_eq(&rt, DynamicAddress::new(*number).is_some(), *is_one, number);
    }
}

/// Each fault with its number and its name.
const FAULTS: &[(I3cFault, u8, &str)] = &[
    (I3cFault::Short, 1, "Short"),
    (I3cFault::WrongPec, 2, "WrongPec"),
];

#[test]
fn numbers_and_names_of_the_faults(rt: HostRuntime) {
    for (fault, number, name) in FAULTS {
        expect_eq(&rt, fault.number(), *number, fault);
        expect_eq(&rt, fault.name(), *name, fault);
    }
}

/// A transfer: its target's number and its way.
type Transfer = (u8, Direction);

/// A write to 0x30.
const WRITE: Transfer = (0x30, Direction::Write);

/// A read from 0x30.
const READ: Transfer = (0x30, Direction::Read);

/// The address of this number.
fn address(rt: &impl Abort, number: u8) -> DynamicAddress {
    DynamicAddress::new(number).expect(rt, "a dynamic address")
}

/// In this transfer these bytes are read so.
fn is_read(
    rt: &impl Abort,
    (target, direction): Transfer,
    bytes: &[u8],
    wanted: Result<&[u8], I3cFault>,
) {
    let read = read(address(rt, target), direction, bytes);
    expect_eq(rt, read, wanted, bytes);
}

/// In this transfer the packet is framed so.
fn is_framed(
    rt: &impl Abort,
    (target, direction): Transfer,
    packet: &[u8],
    wanted: Result<&[u8], &LengthFault>,
) {
    let framed = frame(address(rt, target), direction, packet);
    let framed = framed.as_ref().map(FrameBytes::as_slice);
    expect_eq(rt, framed, wanted, packet);
}

/// A transfer, and the PEC of the packet in it.
const TRANSFERS: &[(Transfer, u8)] = &[
    (WRITE, 0x2B),
    (READ, 0x52),
    ((0x00, Direction::Write), 0x3C),
    ((0x7F, Direction::Read), 0x33),
];

#[test]
fn frames_of_a_request(rt: HostRuntime) {
    let mut bytes = FRAME;
    for (transfer, pec) in TRANSFERS {
        bytes[8] = *pec;
        is_framed(&rt, *transfer, &bytes[..8], Ok(&bytes));
        is_read(&rt, *transfer, &bytes, Ok(&bytes[..8]));
    }
}

#[test]
fn longest_frame(rt: HostRuntime) {
    let mut bytes = [0x5A; 255];
    bytes[..4].copy_from_slice(&FRAME[..4]);
    bytes[254] = 0x99;
    is_framed(&rt, READ, &bytes[..254], Ok(&bytes));
    is_read(&rt, READ, &bytes, Ok(&bytes[..254]));
}

#[test]
fn longer_frame_is_read(rt: HostRuntime) {
    let mut bytes = [0x5A; 301];
    bytes[..4].copy_from_slice(&FRAME[..4]);
    bytes[300] = 0x82;
    is_read(&rt, READ, &bytes, Ok(&bytes[..300]));
    is_framed(&rt, READ, &bytes[..300], Err(&LengthFault::TooLong));
    is_framed(&rt, READ, &bytes[..3], Err(&LengthFault::TooShort));
}

#[test]
fn bytes_that_are_too_few(rt: HostRuntime) {
    for length in 0..5 {
        is_read(&rt, WRITE, &FRAME[..length], Err(I3cFault::Short));
    }
    let header = [0x01, 0x09, 0x08, 0xC8, 0x5E];
    is_read(&rt, WRITE, &header, Ok(&header[..4]));
}

#[test]
fn frame_of_another_transfer(rt: HostRuntime) {
    let wrong = Err(I3cFault::WrongPec);
    for target in 0..0x80 {
        if target != 0x30 {
            is_read(&rt, (target, Direction::Write), &FRAME, wrong);
        }
        is_read(&rt, (target, Direction::Read), &FRAME, wrong);
    }
    is_read(&rt, WRITE, &FRAME, Ok(&FRAME[..8]));
}

/// The frame with one bit the other way round. The lowest bit of the first byte is bit 0.
fn flipped(bit: usize) -> [u8; 9] {
    let mut bytes = FRAME;
    if bit / 8 < bytes.len() {
        bytes[bit / 8] ^= 1 << (bit % 8);
    }
    bytes
}

#[test]
fn each_bit_that_changes_is_seen(rt: HostRuntime) {
    for bit in 0..8 * FRAME.len() {
        is_read(&rt, WRITE, &flipped(bit), Err(I3cFault::WrongPec));
    }
}
