//! Frames on SMBus, written by hand from the table of the standard.

use crate::expect::expect_eq;
use mctp_i2c::smbus::{FrameBytes, SmbusFault, frame, read};
use mctp_i2c::{LengthFault, SmbusAddress};
use std::process::Abort;

/// A packet from endpoint 8 to endpoint 9: a request for the TID.
const PACKET: &[u8] = &[0x01, 0x09, 0x08, 0xC8, 0x01, 0x80, 0x00, 0x02];

/// The header of a packet alone.
const HEADER: &[u8] = &[0x01, 0x09, 0x08, 0xC8];

/// The packet's frame from 0x10 to 0x1D.
const FRAME: [u8; 13] = [
    0x3A, 0x0F, 0x09, 0x21, 0x01, 0x09, 0x08, 0xC8, 0x01, 0x80, 0x00, 0x02, 0xCA,
];

/// A number, and whether it is the address of a device.
const ADDRESSES: &[(u8, bool)] = &[
    (0x00, false),
    (0x07, false),
    (0x08, true),
    (0x77, true),
    (0x78, false),
    (0xFF, false),
];

#[test]
fn addresses_of_devices(rt: HostRuntime) {
    for (number, is_one) in ADDRESSES {
        expect_eq(&rt, SmbusAddress::new(*number).is_some(), *is_one, number);
    }
}

/// Each fault with its number and its name.
const FAULTS: &[(SmbusFault, u8, &str)] = &[
    (SmbusFault::Short, 1, "Short"),
    (SmbusFault::NotOurs, 2, "NotOurs"),
    (SmbusFault::OtherCommand, 3, "OtherCommand"),
    (SmbusFault::WrongCount, 4, "WrongCount"),
    (SmbusFault::NotSource, 5, "NotSource"),
    (SmbusFault::WrongPec, 6, "WrongPec"),
];

/// Each fault of a length with its number and its name.
const LENGTH_FAULTS: &[(LengthFault, u8, &str)] = &[
    (LengthFault::TooShort, 1, "TooShort"),
    (LengthFault::TooLong, 2, "TooLong"),
];

#[test]
fn numbers_and_names_of_the_faults(rt: HostRuntime) {
    for (fault, number, name) in FAULTS {
        expect_eq(&rt, fault.number(), *number, fault);
        expect_eq(&rt, fault.name(), *name, fault);
    }
    for (fault, number, name) in LENGTH_FAULTS {
        expect_eq(&rt, fault.number(), *number, fault);
        expect_eq(&rt, fault.name(), *name, fault);
    }
}

/// The address of this number.
fn address(rt: &impl Abort, number: u8) -> SmbusAddress {
    SmbusAddress::new(number).expect(rt, "the address of a device")
}

/// What bytes are read as: the number of the source's address and the packet, or a fault.
type Reading<'a> = Result<(u8, &'a [u8]), SmbusFault>;

/// What these bytes are read as at this address.
fn reading<'a>(rt: &impl Abort, own: u8, bytes: &'a [u8]) -> Reading<'a> {
    let received = read(address(rt, own), bytes)?;
    Ok((received.source().get(), received.packet()))
}

/// At this address these bytes are read so.
fn is_read(rt: &impl Abort, own: u8, bytes: &[u8], wanted: Reading<'_>) {
    expect_eq(rt, reading(rt, own, bytes), wanted, bytes);
}

/// The frame of the packet is these bytes, and they are read as it.
fn both_ways(rt: &impl Abort, source: u8, own: u8, packet: &[u8], bytes: &[u8]) {
    let framed = frame(address(rt, source), address(rt, own), packet);
    let framed = framed.as_ref().map(FrameBytes::as_slice);
    expect_eq(rt, framed, Ok(bytes), packet);
    is_read(rt, own, bytes, Ok((source, packet)));
}

#[test]
fn frames_of_a_request(rt: HostRuntime) {
    both_ways(&rt, 0x10, 0x1D, PACKET, &FRAME);
    let first_to_last = [0xEE, 0x0F, 0x05, 0x11, 0x01, 0x09, 0x08, 0xC8, 0x29];
    both_ways(&rt, 0x08, 0x77, HEADER, &first_to_last);
    let last_to_first = [0x10, 0x0F, 0x05, 0xEF, 0x01, 0x09, 0x08, 0xC8, 0xBA];
    both_ways(&rt, 0x77, 0x08, HEADER, &last_to_first);
}

#[test]
fn frame_of_the_baseline_unit(rt: HostRuntime) {
    let mut bytes = [0; 73];
    bytes[..8].copy_from_slice(&[0x3A, 0x0F, 69, 0x21, 0x01, 0x09, 0x08, 0xC8]);
    for i in 0..64 {
        bytes[8 + i] = i as u8;
    }
    bytes[72] = 0x99;
    both_ways(&rt, 0x10, 0x1D, &bytes[4..72], &bytes);
}

#[test]
fn longest_frame(rt: HostRuntime) {
    let mut bytes = [0x5A; 259];
    bytes[..8].copy_from_slice(&[0x3A, 0x0F, 255, 0x21, 0x01, 0x09, 0x08, 0xC8]);
    bytes[258] = 0xFB;
    both_ways(&rt, 0x10, 0x1D, &bytes[4..258], &bytes);
}

/// The length of a packet, and why it has no frame.
const LENGTHS: &[(usize, Option<LengthFault>)] = &[
    (0, Some(LengthFault::TooShort)),
    (3, Some(LengthFault::TooShort)),
    (4, None),
    (254, None),
    (255, Some(LengthFault::TooLong)),
];

#[test]
fn packets_without_a_frame(rt: HostRuntime) {
    let (source, own) = (address(&rt, 0x10), address(&rt, 0x1D));
    for (length, fault) in LENGTHS {
        let packet = [0x01; 255].get(..*length).expect(&rt, "so many bytes");
        expect_eq(&rt, frame(source, own, packet).err(), *fault, length);
    }
}

#[test]
fn packet_of_one_byte_is_read(rt: HostRuntime) {
    let own = address(&rt, 0x1D).write_byte();
    let bytes = [own, 0x0F, 0x02, 0x21, 0xAA, 0x6B];
    is_read(&rt, 0x1D, &bytes, Ok((0x10, &[0xAA])));
}

#[test]
fn bytes_that_are_too_few(rt: HostRuntime) {
    for length in 0..6 {
        is_read(&rt, 0x1D, &FRAME[..length], Err(SmbusFault::Short));
    }
    is_read(&rt, 0x1D, &FRAME[..6], Err(SmbusFault::WrongCount));
}

/// The frame with this byte at this place, and with this PEC.
fn changed(place: usize, byte: u8, pec: u8) -> [u8; 13] {
    let mut bytes = FRAME;
    if place < bytes.len() {
        bytes[place] = byte;
    }
    bytes[12] = pec;
    bytes
}

/// A place in the frame, the byte that stands there, the PEC, and the fault.
const FAULTY: &[(usize, u8, u8, SmbusFault)] = &[
    (1, 0x0E, 0xD5, SmbusFault::OtherCommand),
    (2, 0x0A, 0x72, SmbusFault::WrongCount),
    (2, 0x08, 0xA2, SmbusFault::WrongCount),
    (3, 0x20, 0xB3, SmbusFault::NotSource),
    (3, 0x0F, 0x17, SmbusFault::NotSource),
    (3, 0xF1, 0x61, SmbusFault::NotSource),
    (12, 0xCC, 0xCC, SmbusFault::WrongPec),
];

#[test]
fn one_fault_with_a_right_pec(rt: HostRuntime) {
    for (place, byte, pec, fault) in FAULTY {
        is_read(&rt, 0x1D, &changed(*place, *byte, *pec), Err(*fault));
    }
    is_read(&rt, 0x1E, &FRAME, Err(SmbusFault::NotOurs));
}

#[test]
fn first_and_last_source(rt: HostRuntime) {
    for (byte, pec, source) in [(0x11, 0x42, 0x08), (0xEF, 0x34, 0x77)] {
        let bytes = changed(3, byte, pec);
        is_read(&rt, 0x1D, &bytes, Ok((source, PACKET)));
    }
}

/// A place in the frame, and the fault of a wrong byte there, in the order in which they are looked for.
const TURNS: &[(usize, SmbusFault)] = &[
    (0, SmbusFault::NotOurs),
    (1, SmbusFault::OtherCommand),
    (2, SmbusFault::WrongCount),
    (3, SmbusFault::NotSource),
    (12, SmbusFault::WrongPec),
];

/// Puts the frame's byte at this place.
fn mend(bytes: &mut [u8; 13], place: usize) {
    if place < bytes.len() {
        bytes[place] = FRAME[place];
    }
}

#[test]
fn refusals_come_in_turn(rt: HostRuntime) {
    let mut bytes = [
        0x3B, 0x0E, 0x0A, 0x20, 0x01, 0x09, 0x08, 0xC8, 0x01, 0x80, 0x00, 0x02, 0x00,
    ];
    for (place, fault) in TURNS {
        is_read(&rt, 0x1D, &bytes, Err(*fault));
        mend(&mut bytes, *place);
    }
    is_read(&rt, 0x1D, &bytes, Ok((0x10, PACKET)));
}

/// The bytes with one bit the other way round. The lowest bit of the first byte is bit 0.
fn flipped(mut bytes: [u8; 13], bit: usize) -> [u8; 13] {
    if bit / 8 < bytes.len() {
        bytes[bit / 8] ^= 1 << (bit % 8);
    }
    bytes
}

/// What a change of this bit of this byte is refused for.
fn fault_of_change(place: usize, bit: usize) -> SmbusFault {
    match (place, bit) {
        (0, _) => SmbusFault::NotOurs,
        (1, _) => SmbusFault::OtherCommand,
        (2, _) => SmbusFault::WrongCount,
        // bit 5 makes the source 0x00, which is reserved
        (3, 0 | 5) => SmbusFault::NotSource,
        _ => SmbusFault::WrongPec,
    }
}

#[test]
fn each_bit_that_changes_is_seen(rt: HostRuntime) {
    for bit in 0..8 * FRAME.len() {
        let fault = fault_of_change(bit / 8, bit % 8);
        is_read(&rt, 0x1D, &flipped(FRAME, bit), Err(fault));
    }
}

#[test]
fn any_two_bits_that_change_are_seen(rt: HostRuntime) {
    for first in 0..8 * FRAME.len() {
        for second in 0..first {
            let bytes = flipped(flipped(FRAME, first), second);
            let is_refused = reading(&rt, 0x1D, &bytes).is_err();
            expect_eq(&rt, is_refused, true, (first, second));
        }
    }
}
