//! Packets read and written, and messages cut into packets.

use crate::expect::expect_eq;
use mctp_packet::{
    Eid, HEADER, Keep, MAX_PACKET_BYTES, Memory, Moment, PacketRef, Packets, Reason, Route, Seq,
    SplitFault, Tag, read, read_for, split, write,
};
use std::alloc::AllocError;
use std::process::Abort;

#[test]
fn ranges_of_numbers(rt: HostRuntime) {
    for (number, wanted) in [(7, None), (8, Some(8)), (254, Some(254)), (255, None)] {
        expect_eq(&rt, Eid::new(number).map(Eid::get), wanted, number);
    }
    for (number, wanted) in [(0, Some(0)), (7, Some(7)), (8, None)] {
        expect_eq(&rt, Tag::new(number).map(Tag::get), wanted, number);
    }
    for (number, wanted) in [(0, Some(0)), (3, Some(3)), (4, None)] {
        expect_eq(&rt, Seq::new(number).map(Seq::get), wanted, number);
    }
}

#[test]
fn ranges_of_times(rt: HostRuntime) {
    let longest = 60_000;
    for (time, wanted) in [
        (0, None),
        (1, Some(1)),
        (longest, Some(longest)),
        (longest + 1, None),
    ] {
        expect_eq(&rt, Keep::new(time).map(Keep::get), wanted, time);
    }
    let last = 4_000_000_000_000_000;
    for (time, wanted) in [(0, Some(0)), (last, Some(last)), (last + 1, None)] {
        expect_eq(&rt, Moment::new(time).map(Moment::get), wanted, time);
    }
}

/// Each reason with its number and its name.
const REASONS: &[(Reason, u8, &str)] = &[
    (Reason::Short, 1, "Short"),
    (Reason::BadVersion, 2, "BadVersion"),
    (Reason::UnknownDestination, 3, "UnknownDestination"),
    (Reason::BadSource, 4, "BadSource"),
    (Reason::NoPayload, 5, "NoPayload"),
    (Reason::UnsupportedUnit, 6, "UnsupportedUnit"),
    (Reason::BadTag, 7, "BadTag"),
    (Reason::UnexpectedMiddleOrEnd, 8, "UnexpectedMiddleOrEnd"),
    (Reason::OutOfSequence, 9, "OutOfSequence"),
    (Reason::TooLong, 10, "TooLong"),
    (Reason::WrongUnit, 11, "WrongUnit"),
    (Reason::NotPldm, 12, "NotPldm"),
    (Reason::Integrity, 13, "Integrity"),
    (Reason::ShortHeader, 14, "ShortHeader"),
    (Reason::BadPldmHeader, 15, "BadPldmHeader"),
    (Reason::NotRequest, 16, "NotRequest"),
    (Reason::Datagram, 17, "Datagram"),
    (Reason::NotResponse, 18, "NotResponse"),
    (Reason::NotMine, 19, "NotMine"),
    (Reason::NotReady, 20, "NotReady"),
];

#[test]
fn numbers_and_names_of_the_reasons(rt: HostRuntime) {
    for (reason, number, name) in REASONS {
        expect_eq(&rt, reason.number(), *number, reason);
        expect_eq(&rt, reason.name(), *name, reason);
    }
}

/// A packet from endpoint 9 to endpoint 9.
const FROM_NINE: &[u8] = b"\x01\x09\x09\xc8\x01\x80\x00\x02";

/// A packet from endpoint 8 to endpoint 9.
const TO_NINE: &[u8] = b"\x01\x09\x08\xc8\x01\x80\x00\x02";

/// The same with reserved bits that are set.
const RESERVED_BITS: &[u8] = b"\xf1\x09\x08\xc8\x01\x80\x00\x02";

/// The packet that these bytes are.
fn packet<'a>(rt: &impl Abort, bytes: &'a [u8]) -> PacketRef<'a> {
    read(bytes).expect(rt, "a packet")
}

#[test]
fn a_packet_is_read(rt: HostRuntime) {
    let packet = packet(&rt, FROM_NINE);
    let route = packet.route();
    expect_eq(&rt, route.destination.get(), 9, "destination");
    expect_eq(&rt, route.source.get(), 9, "source");
    expect_eq(&rt, route.owner, true, "owner");
    expect_eq(&rt, route.tag.get(), 0, "tag");
    expect_eq(&rt, packet.start(), true, "start");
    expect_eq(&rt, packet.end(), true, "end");
    expect_eq(&rt, packet.seq().get(), 0, "sequence number");
    expect_eq(&rt, packet.payload(), &FROM_NINE[HEADER..], "payload");
}

/// A byte that no packet has written over.
const UNTOUCHED: u8 = 0xaa;

#[test]
fn a_packet_is_written(rt: HostRuntime) {
    let mut wanted = [UNTOUCHED; MAX_PACKET_BYTES];
    wanted[..8].copy_from_slice(FROM_NINE);
    let mut out = [UNTOUCHED; MAX_PACKET_BYTES];
    let count = write(&packet(&rt, FROM_NINE), &mut out);
    expect_eq(&rt, count, 8, "count");
    expect_eq(&rt, out.as_slice(), &wanted, "bytes");
}

#[test]
fn packets_are_read_for_an_endpoint(rt: HostRuntime) {
    let nine = Eid::new(9).expect(&rt, "an endpoint ID");
    for (bytes, refusal) in [
        (TO_NINE, None),
        (FROM_NINE, Some(Reason::BadSource)),
        (RESERVED_BITS, None),
    ] {
        expect_eq(&rt, read_for(nine, bytes).err(), refusal, bytes);
    }
}

/// The route of a device's answer from 9 to 8.
fn to_eight(rt: &impl Abort) -> Route {
    Route {
        destination: Eid::new(8).expect(rt, "an endpoint ID"),
        source: Eid::new(9).expect(rt, "an endpoint ID"),
        owner: false,
        tag: Tag::new(0).expect(rt, "a tag"),
    }
}

#[test]
fn no_packet_is_made_without_a_payload(rt: HostRuntime) {
    let seq = Seq::new(0).expect(&rt, "a sequence number");
    let made = PacketRef::new(to_eight(&rt), true, true, seq, &[]);
    expect_eq(&rt, made.is_none(), true, "refused");
}

/// The length of a message, and of each packet that it is cut into the flags and the length.
const CUTS: &[(usize, &[(u8, usize)])] = &[
    (64, &[(0xc0, 68)]),
    (65, &[(0x80, 68), (0x50, 5)]),
    (256, &[(0x80, 68), (0x10, 68), (0x20, 68), (0x70, 68)]),
    // the last packet of five has the number of the first
    (
        257,
        &[(0x80, 68), (0x10, 68), (0x20, 68), (0x30, 68), (0x40, 5)],
    ),
    (
        320,
        &[(0x80, 68), (0x10, 68), (0x20, 68), (0x30, 68), (0x40, 68)],
    ),
];

/// These are the flags and the lengths of the packets, each from endpoint 9 to endpoint 8.
fn expect_packets(rt: &impl Abort, packets: &Packets, wanted: &[(u8, usize)]) {
    expect_eq(rt, packets.len(), wanted.len(), "count");
    for (place, (flags, length)) in wanted.iter().enumerate() {
        let packet = packets.get(place).unwrap_or(&[]);
        expect_eq(rt, packet.len(), *length, place);
        expect_eq(rt, packet.starts_with(&[1, 8, 9, *flags]), true, place);
    }
    expect_eq(rt, packets.get(wanted.len()), None, "the end");
}

#[test]
fn messages_are_split(rt: HostRuntime) {
    let route = to_eight(&rt);
    for (length, wanted) in CUTS {
        let message = [0x55; 321].get(..*length).expect(&rt, "so many bytes");
        let packets = split(&route, message).expect(&rt, "packets");
        expect_packets(&rt, &packets, wanted);
    }
}

#[test]
fn messages_that_are_not_split(rt: HostRuntime) {
    let route = to_eight(&rt);
    let empty = split(&route, &[]).err();
    expect_eq(&rt, empty, Some(SplitFault::Empty), "no bytes");
    let long = split(&route, &[0x55; 321]).err();
    expect_eq(&rt, long, Some(SplitFault::TooLong), "321 bytes");
}

#[test]
fn out_of_memory_is_returned(rt: HostRuntime) {
    let text = Memory::from(AllocError)
        .to_string(rt.alloc())
        .expect(&rt, "memory");
    expect_eq(&rt, text.as_str(), "out of memory", "text");
}
