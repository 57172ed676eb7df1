//! Messages assembled from packets, and packets that are dropped.

use crate::expect::expect_eq;
use crate::hoard::Hoard;
use mctp_assembly::{Assembler, Fed, Key};
use mctp_packet::{
    BASELINE_UNIT, Eid, HEADER, MAX_PACKET_BYTES, PacketRef, Reason, Tag, read, read_for,
};
use std::alloc::Global;
use std::process::Abort;

/// The endpoint that all packets here are addressed to.
const OWN: u8 = 9;

/// What a packet gives, with the message borrowed.
#[derive(Clone, Copy, Debug, PartialEq)]
enum Given<'a> {
    Whole(&'a [u8]),
    Partial,
    Dropped(Reason),
}

/// What this packet gave.
fn outcome(fed: &Fed) -> Given<'_> {
    match fed {
        Fed::Whole(message) => Given::Whole(message.as_slice()),
        Fed::Partial => Given::Partial,
        Fed::Dropped(reason) => Given::Dropped(*reason),
    }
}

/// Feeds a packet, with memory at hand. A look at it gives the same before.
fn feed(rt: &impl Abort, assembler: &mut Assembler, packet: &PacketRef<'_>, wanted: Given<'_>) {
    let seen = assembler.look(packet);
    expect_eq(rt, outcome(&seen), wanted, packet);
    let fed = assembler.feed(packet).expect(rt, "memory");
    expect_eq(rt, outcome(&fed), wanted, packet);
}

/// The packet to the endpoint that these bytes are.
fn packet<'a>(rt: &impl Abort, bytes: &'a [u8]) -> PacketRef<'a> {
    let own = Eid::new(OWN).expect(rt, "an endpoint ID");
    read_for(own, bytes).expect(rt, "a packet")
}

/// A packet's bytes, and what it gives.
type Row<'a> = (&'a [u8], Given<'a>);

/// Feeds packets, with memory at hand.
fn feed_all(rt: &impl Abort, assembler: &mut Assembler, rows: &[Row<'_>]) {
    for (bytes, wanted) in rows {
        feed(rt, assembler, &packet(rt, bytes), *wanted);
    }
}

const BEGUN: &[u8] = &[0x01, 0x09, 0x08, 0x88, 0x01, 0x80];

const MIDDLE: &[u8] = &[0x01, 0x09, 0x08, 0x18, 0x00, 0x01];

const END: &[u8] = &[0x01, 0x09, 0x08, 0x58, 0x00, 0x02];

const LATE_END: &[u8] = &[0x01, 0x09, 0x08, 0x68, 0x05];

/// What a packet gives that continues no message.
const UNEXPECTED: Given<'_> = Given::Dropped(Reason::UnexpectedMiddleOrEnd);

/// A start packet begins anew, and a lost packet ends the assembly.
const BEGUN_ANEW: &[Row<'_>] = &[
    (BEGUN, Given::Partial),
    (&[0x01, 0x09, 0x08, 0x88, 0x01, 0x82], Given::Partial),
    (END, Given::Whole(&[0x01, 0x82, 0x00, 0x02])),
    (BEGUN, Given::Partial),
    (LATE_END, Given::Dropped(Reason::OutOfSequence)),
    (MIDDLE, UNEXPECTED),
    (LATE_END, UNEXPECTED),
];

/// Three packets in order, and then a middle packet of another length.
const IN_ORDER: &[Row<'_>] = &[
    (BEGUN, Given::Partial),
    (MIDDLE, Given::Partial),
    (LATE_END, Given::Whole(&[0x01, 0x80, 0x00, 0x01, 0x05])),
    (BEGUN, Given::Partial),
    (
        &[0x01, 0x09, 0x08, 0x18, 0x00],
        Given::Dropped(Reason::WrongUnit),
    ),
];

/// Five packets, of which the last has the number of the first, and then a packet more than a message may have.
const FIVE_AND_SIX: &[Row<'_>] = &[
    (&[0x01, 0x09, 0x08, 0x88, 0x01], Given::Partial),
    (&[0x01, 0x09, 0x08, 0x18, 0x80], Given::Partial),
    (&[0x01, 0x09, 0x08, 0x28, 0x00], Given::Partial),
    (&[0x01, 0x09, 0x08, 0x38, 0x01], Given::Partial),
    (
        &[0x01, 0x09, 0x08, 0x48, 0x05],
        Given::Whole(&[0x01, 0x80, 0x00, 0x01, 0x05]),
    ),
    (&[0x01, 0x09, 0x08, 0x88, 0x01], Given::Partial),
    (&[0x01, 0x09, 0x08, 0x18, 0x80], Given::Partial),
    (&[0x01, 0x09, 0x08, 0x28, 0x00], Given::Partial),
    (&[0x01, 0x09, 0x08, 0x38, 0x01], Given::Partial),
    (&[0x01, 0x09, 0x08, 0x08, 0x00], Given::Partial),
    (
        &[0x01, 0x09, 0x08, 0x58, 0x05],
        Given::Dropped(Reason::TooLong),
    ),
];

#[test]
fn packets_are_assembled_or_dropped(rt: HostRuntime) {
    let mut assembler = Assembler::new(rt.alloc());
    for rows in [BEGUN_ANEW, IN_ORDER, FIVE_AND_SIX] {
        feed_all(&rt, &mut assembler, rows);
    }
    expect_eq(&rt, assembler.pending(), 0, "pending");
}

/// Ends the assembly of what `BEGUN` began, with no memory to be had.
fn forget(rt: &impl Abort, alloc: Global, assembler: &mut Assembler) {
    let key = Key {
        source: Eid::new(8).expect(rt, "an endpoint ID"),
        tag: Tag::new(0).expect(rt, "a tag"),
        owner: true,
    };
    let hoard = Hoard::take(alloc, 0).expect(rt, "room for the hoard");
    assembler.forget(key);
    drop(hoard);
}

#[test]
fn a_forgotten_key_has_nothing_to_go_on(rt: HostRuntime) {
    let mut assembler = Assembler::new(rt.alloc());
    feed_all(&rt, &mut assembler, &[(BEGUN, Given::Partial)]);
    expect_eq(&rt, assembler.pending(), 1, "pending");
    forget(&rt, rt.alloc(), &mut assembler);
    expect_eq(&rt, assembler.pending(), 0, "pending");
    feed_all(&rt, &mut assembler, &[(END, UNEXPECTED)]);
}

/// Feeds a packet that gives `Partial` with about `spare` bytes of memory to be had. Returns whether they were too few.
fn is_refused(
    rt: &impl Abort,
    alloc: Global,
    assembler: &mut Assembler,
    packet: &PacketRef<'_>,
    spare: usize,
) -> bool {
    let hoard = Hoard::take(alloc, spare).expect(rt, "room for the hoard");
    let fed = assembler.feed(packet);
    drop(hoard);
    if let Ok(fed) = &fed {
        expect_eq(rt, outcome(fed), Given::Partial, packet);
    }
    fed.is_err()
}

/// As `is_refused`. A packet that was refused leaves what is pending, and is fed once more with memory at hand.
fn feed_with(
    rt: &impl Abort,
    alloc: Global,
    assembler: &mut Assembler,
    packet: &PacketRef<'_>,
    spare: usize,
) -> bool {
    let before = assembler.pending();
    let refused = is_refused(rt, alloc, assembler, packet, spare);
    if refused {
        expect_eq(rt, assembler.pending(), before, packet);
        feed(rt, assembler, packet, Given::Partial);
    }
    refused
}

/// Feeds the end of this message twice, with no memory to be had. It takes none, and ends the message once.
fn end(rt: &impl Abort, alloc: Global, assembler: &mut Assembler, message: &[u8]) {
    let hoard = Hoard::take(alloc, 0).expect(rt, "room for the hoard");
    feed_all(
        rt,
        assembler,
        &[(LATE_END, Given::Whole(message)), (LATE_END, UNEXPECTED)],
    );
    drop(hoard);
}

/// A packet's bytes with these flags and a full payload of one byte's value.
fn full(flags: u8, value: u8) -> [u8; MAX_PACKET_BYTES] {
    let mut bytes = [value; MAX_PACKET_BYTES];
    bytes[..HEADER].copy_from_slice(&[0x01, OWN, 0x08, flags]);
    bytes
}

#[test]
fn each_growth_is_refused_in_turn(rt: HostRuntime) {
    let (begun, middle) = (full(0x88, 1), full(0x18, 2));
    let (begun, middle) = (packet(&rt, &begun), packet(&rt, &middle));
    let mut message = [5; 2 * BASELINE_UNIT + 1];
    message[..BASELINE_UNIT].fill(1);
    message[BASELINE_UNIT..2 * BASELINE_UNIT].fill(2);
    // The start packet takes room for a whole message and a place in the list, a middle packet takes none.
    for (at_start, refused) in [(0, true), (320, true), (16_384, false)] {
        let mut assembler = Assembler::new(rt.alloc());
        let at_begin = feed_with(&rt, rt.alloc(), &mut assembler, &begun, at_start);
        let at_middle = feed_with(&rt, rt.alloc(), &mut assembler, &middle, 0);
        expect_eq(&rt, (at_begin, at_middle), (refused, false), at_start);
        end(&rt, rt.alloc(), &mut assembler, &message);
    }
}

/// However high the endpoint ID of its source, an open message takes at most 400 bytes.
#[test]
fn a_message_of_the_highest_source_takes_few_bytes(rt: HostRuntime) {
    let begun = packet(&rt, &[0x01, OWN, 0xfe, 0x88, 0x01, 0x80]);
    let mut assembler = Assembler::new(rt.alloc());
    let refused = feed_with(&rt, rt.alloc(), &mut assembler, &begun, 400);
    expect_eq(&rt, refused, false, "with 400 bytes");
}

/// Feeds a packet of any source, which may be the endpoint itself.
fn feed_any(rt: &impl Abort, assembler: &mut Assembler, bytes: &[u8], wanted: Given<'_>) {
    let packet = read(bytes).expect(rt, "a packet");
    feed(rt, assembler, &packet, wanted);
}

/// Packets of all 247 sources, not addressed to one endpoint: every key has an assembly at a time.
#[test]
fn every_key_has_an_assembly(rt: HostRuntime) {
    let mut assembler = Assembler::new(rt.alloc());
    for source in 8..=254 {
        // a start packet of each tag, without the owner's bit and with it
        for flags in 0x80..=0x8f {
            let start = [0x01, OWN, source, flags, 0x01];
            feed_any(&rt, &mut assembler, &start, Given::Partial);
        }
    }
    expect_eq(&rt, assembler.pending(), 3_952, "pending");
    let end = [0x01, OWN, 0xfe, 0x5f, 0x05];
    feed_any(&rt, &mut assembler, &end, Given::Whole(&[0x01, 0x05]));
    expect_eq(&rt, assembler.pending(), 3_951, "pending");
}
