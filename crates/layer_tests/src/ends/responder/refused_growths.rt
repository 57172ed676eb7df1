//! Each growth of a run is refused in turn, and calls that want no memory have none.

use super::*;
use mctp_packet::{MAX_PACKET_BYTES, PacketRef, Packets, Route, Seq, Tag, split, write};
use pldm_wire::{
    Answer, Command, EffecterValues, GET_NUMERIC_EFFECTER_VALUE, Kind, Number, PLATFORM, Size,
    write_answer, write_command,
};

/// How many bytes more there are after each refusal.
const STEP: usize = 16;

/// More refusals than one packet meets.
const MAX_REFUSALS: u32 = 4_000;

/// What a refusal has to leave: how many answers are kept, how many messages are open, and the last moment.
fn state_of(device: &Responder<SimDevice>) -> (usize, usize, u64) {
    (device.kept(), device.pending(), device.last_moment().get())
}

/// What comes of a packet that is handed over with no memory at first, and again after each refusal with
/// a little more. A refusal leaves what was there, and is counted.
fn receive_at_last(
    rt: &impl Abort,
    device: &mut Responder<SimDevice>,
    hoard: &mut Hoard,
    refusals: &mut u32,
    milliseconds: u64,
    packet: &[u8],
) -> Outcome {
    let before = state_of(device);
    hoard.take_rest().expect(rt, "room in the hoard");
    for _ in 0..MAX_REFUSALS {
        if let Ok(outcome) = receive(rt, device, milliseconds, packet) {
            return outcome;
        }
        assert_eq!(rt; state_of(device), before);
        *refusals = refusals.saturating_add(1);
        hoard.give(STEP);
    }
    panic!(rt; "never taken")
}

/// Adds a line.
fn add_line(rt: &impl Abort, text: &mut String, line: &str) {
    text.push_str(line).expect(rt, "memory");
    text.push('\n').expect(rt, "memory");
}

/// Adds a line for each packet.
fn add_packets(rt: &impl Abort, alloc: Global, text: &mut String, packets: &Packets) {
    for place in 0..packets.len() {
        let packet = packets.get(place).unwrap_or(&[]);
        let line = hex::encode(alloc, packet).expect(rt, "memory");
        add_line(rt, text, line.as_str());
    }
}

/// Adds the lines in which an outcome is shown.
fn add_outcome(rt: &impl Abort, alloc: Global, text: &mut String, outcome: &Outcome) {
    match outcome {
        Outcome::Dropped(reason) => {
            text.push_str("drop ").expect(rt, "memory");
            add_line(rt, text, reason.name());
        }
        Outcome::Partial => add_line(rt, text, "partial"),
        Outcome::Answered { packets, .. } => add_packets(rt, alloc, text, packets),
    }
}

/// A packet of a capture, and the moment at which it comes: a line `MILLISECONDS HEX`.
fn packet_in(rt: &impl Abort, alloc: Global, line: &str) -> (u64, Vec<u8>) {
    let (milliseconds, packet) = line.split_once(' ').expect(rt, "a packet");
    (
        milliseconds.parse().expect(rt, "a moment"),
        hex::decode(alloc, packet).expect(rt, "hex digits"),
    )
}

/// The packets of a capture.
fn packets_of(rt: &impl Abort, alloc: Global, capture: &str) -> Vec<(u64, Vec<u8>)> {
    let mut packets = Vec::new(alloc);
    for line in capture.lines() {
        packets
            .push(packet_in(rt, alloc, line))
            .expect(rt, "memory");
    }
    packets
}

/// Hands these packets over, each with no memory at first.
fn receive_all(
    rt: &impl Abort,
    alloc: Global,
    device: &mut Responder<SimDevice>,
    packets: &[(u64, Vec<u8>)],
    outcomes: &mut Vec<Outcome>,
) {
    let mut hoard = Hoard::take(alloc, 0).expect(rt, "a hoard");
    let mut refusals = 0u32;
    for (moment, packet) in packets {
        let outcome = receive_at_last(rt, device, &mut hoard, &mut refusals, *moment, packet);
        outcomes.push(outcome).expect(rt, "room for it");
    }
    drop(hoard);
    assert!(rt; refusals > 1, "{refusals} refusals");
}

/// What becomes of the packets of a capture at the example device, in lines.
fn told(rt: &impl Abort, alloc: Global, capture: &str) -> String {
    let packets = packets_of(rt, alloc, capture);
    let mut outcomes = Vec::with_capacity(alloc, packets.len()).expect(rt, "memory");
    receive_all(rt, alloc, &mut example(rt, alloc), &packets, &mut outcomes);
    let mut text = String::new(alloc);
    for outcome in &outcomes {
        add_outcome(rt, alloc, &mut text, outcome);
    }
    text
}

/// Messages of several packets: whole, with one lost, with one of another length, and too long.
const SEVERAL_PACKETS: &str = "0 010908880180
0 010908880182
0 010908580002
1 010908880180
1 0109086805
1 010908180001
1 0109086805
2 010908880180
2 010908180001
2 0109086805
3 010908880180
3 0109081800
4 0109088801
4 0109081880
4 0109082800
4 0109083801
4 0109084805
5 0109088801
5 0109081880
5 0109082800
5 0109083801
5 0109080800
5 0109085805
";

const SEVERAL_PACKETS_TOLD: &str = "partial
partial
010809c0010200020001
partial
drop OutOfSequence
drop UnexpectedMiddleOrEnd
drop UnexpectedMiddleOrEnd
partial
partial
010809c00100000100
partial
drop WrongUnit
partial
partial
partial
partial
010809c00100000100
partial
partial
partial
partial
partial
drop TooLong
";

/// A record in one part, what is left of it from an offset on, and a part past its end.
const RECORD: &str = "0 010908c801800251000000000000000001ffff0000
0 010908c90181025100000000ef00000000ffff0000
0 010908ca01820251000000002c01000000ffff0000
";

fn record_answered(rt: &impl Abort, alloc: Global) -> String {
    format!(in alloc;
        "0108098001000251000000000000000000052c01{}{:076}\n01080910{:0128}\n01080920{:0128}\n\
        01080930{:0128}\n01080940{:0120}\n\
        01080981010102510000000000\
        00000000043d00{:096}\n01080951{:026}f5\n\
        010809c20102025180\n",
        "01000000010100002201", 0, 0, 0, 0, 0, 0, 0
    )
    .expect(rt, "memory")
}

/// A copy, which does not lengthen the keeping, and the effecter's value at the end.
const COPIES: &str = "0 010908c90181023101000028
600 010908c90181023101000028
700 010908ca0182023101000032
1100 010908c90181023101000028
1101 010908cb018302320100
";

const COPIES_TOLD: &str = "010809c10101023100
010809c10101023100
010809c20102023100
010809c10101023100
010809c3010302320000012828
";

/// Checks what becomes of a capture.
fn expect_told(rt: &impl Abort, alloc: Global, capture: &str, expected: &str) {
    assert_eq!(rt; told(rt, alloc, capture).as_str(), expected);
}

/// Captures of the example device: what is reported at last is what is reported with all memory.
#[test]
fn each_growth_of_a_capture_is_refused_in_turn(rt: HostRuntime) {
    expect_told(&rt, rt.alloc(), SEVERAL_PACKETS, SEVERAL_PACKETS_TOLD);
    let record = record_answered(&rt, rt.alloc());
    expect_told(&rt, rt.alloc(), RECORD, record.as_str());
    expect_told(&rt, rt.alloc(), COPIES, COPIES_TOLD);
}

/// Has the light set with no memory at first, and with a little more after each refusal, which leaves
/// nothing: how often the light was asked, and how many growths were refused.
fn set_at_last(rt: &impl Abort, alloc: Global, light: &mut Responder<Dimmer>) -> (u32, u32) {
    let mut hoard = Hoard::take(alloc, 0).expect(rt, "a hoard");
    for refusals in 0..MAX_REFUSALS {
        let outcome = receive(rt, light, 5, SET_40);
        if fate_of(&outcome) != Fate::NoMemory {
            assert_eq!(rt; fate_of(&outcome), Fate::Set(SET));
            return (light.platform().asked(), refusals);
        }
        assert_eq!(rt; (light.kept(), light.last_moment().get()), (0, 0));
        assert_eq!(rt; light.platform().level(), 0);
        hoard.give(STEP);
    }
    panic!(rt; "never set")
}

/// A request that sets is refused with the room for its source's answers, and then with the box of the
/// light, when it is performed.
#[test]
fn each_growth_of_a_platform_is_refused_in_turn(rt: HostRuntime) {
    let mut light = light(&rt, rt.alloc());
    let (asked, refusals) = set_at_last(&rt, rt.alloc(), &mut light);
    assert_eq!(rt; (light.kept(), light.last_moment().get()), (1, 5));
    assert!(rt; asked > 1 && refusals > asked, "{asked} of {refusals}");
}

/// A message's length, and the fourth byte of each packet that it is split into; none where it is refused.
const PIECES: &[(usize, &[u8])] = &[
    (0, b""),
    (64, b"\xc0"),
    (65, b"\x80\x50"),
    (320, b"\x80\x10\x20\x30\x40"),
    (321, b""),
];

/// The route of a response from endpoint 9 to endpoint 8.
fn route(rt: &impl Abort) -> Route {
    Route {
        destination: Eid::new(8).expect(rt, "an endpoint ID"),
        source: Eid::new(9).expect(rt, "an endpoint ID"),
        owner: false,
        tag: Tag::new(0).expect(rt, "a tag"),
    }
}

/// Checks the fourth byte of each packet.
fn expect_flags(rt: &impl Abort, packets: &Packets, flags: &[u8]) {
    for (place, flag) in flags.iter().enumerate() {
        let packet = packets.get(place).expect(rt, "a packet");
        assert!(rt; packet.starts_with(&[0x01, 0x08, 0x09, *flag]), "{place}");
    }
}

/// Checks the packets that a message is split into.
fn expect_pieces(rt: &impl Abort, route: &Route, message: &[u8], flags: &[u8]) {
    let packets = split(route, message);
    let length = message.len();
    assert_eq!(rt; packets.is_err(), flags.is_empty(), "{length}");
    if let Ok(packets) = &packets {
        expect_flags(rt, packets, flags);
    }
}

/// Checks that a packet is written as these bytes.
fn expect_written(rt: &impl Abort, packet: &PacketRef<'_>, expected: &[u8]) {
    let mut bytes = [0; MAX_PACKET_BYTES];
    let count = write(packet, &mut bytes);
    assert_eq!(rt; bytes.get(..count), Some(expected));
}

#[test]
fn packets_are_written_without_memory(rt: HostRuntime) {
    let route = route(&rt);
    let seq = Seq::new(0).expect(&rt, "a number");
    let message = [7; 321];
    let hoard = Hoard::take(rt.alloc(), 0).expect(&rt, "a hoard");
    for (length, flags) in PIECES {
        let message = message.get(..*length).expect(&rt, "a shorter message");
        expect_pieces(&rt, &route, message, flags);
    }
    let packet = PacketRef::new(route, true, true, seq, &TID[4..]).expect(&rt, "a packet");
    expect_written(&rt, &packet, TID);
    drop(hoard);
}

/// Checks the bytes of a command that sets.
fn expect_command(rt: &impl Abort) {
    let value = Number::new(Size::Sint16, -2).expect(rt, "a number");
    let set = Command::SetNumericEffecterValue { effecter: 1, value };
    assert_eq!(rt;
        write_command(1, &set).as_slice(),
        b"\x01\x81\x02\x31\x01\x00\x03\xfe\xff".as_slice()
    );
}

/// Checks the bytes of an answer that tells.
fn expect_answer(rt: &impl Abort) {
    let level = Number::new(Size::Uint8, 40).expect(rt, "a number");
    let kind = Kind {
        pldm_type: PLATFORM,
        command: GET_NUMERIC_EFFECTER_VALUE,
    };
    let told = Answer::GetNumericEffecterValue {
        operational: 1,
        values: EffecterValues::new(level, level).expect(rt, "values"),
    };
    assert_eq!(rt;
        write_answer(3, kind, &told).as_slice(),
        b"\x01\x03\x02\x32\x00\x00\x01\x28\x28".as_slice()
    );
}

#[test]
fn messages_are_written_without_memory(rt: HostRuntime) {
    let hoard = Hoard::take(rt.alloc(), 0).expect(&rt, "a hoard");
    expect_command(&rt);
    expect_answer(&rt);
    drop(hoard);
}
