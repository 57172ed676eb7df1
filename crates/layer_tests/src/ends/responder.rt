//! A responder by itself: what it performs, which answers it keeps, and what it refuses after a restart.

use crate::example_device::description;
use crate::hoard::Hoard;
use lamp_board::Dimmer;
use mctp_packet::{Eid, Keep, MAX_EID, MIN_EID, Memory, Moment, Reason};
use pldm_device::{Description, Platform, ReadingFault, SimDevice};
use pldm_responder::{Outcome, Responder};
use pldm_wire::INSTANCE_IDS;
use std::alloc::Global;
use std::process::Abort;

mod changes;
mod refused_growths;

/// What becomes of a packet at a responder.
#[derive(Clone, Copy, Debug, PartialEq, Eq)]
enum Fate<'a> {
    /// It is dropped.
    Dropped(Reason),
    /// It is a part of a message.
    Partial,
    /// Its request is performed and sets nothing. This one packet answers it.
    Read(&'a [u8]),
    /// Its request is performed and sets something. This one packet answers it.
    Set(&'a [u8]),
    /// Its request is not performed. This one packet answers it.
    Copy(&'a [u8]),
    /// It is answered in another way.
    Otherwise,
    /// It finds no memory.
    NoMemory,
}

/// A moment, a packet that comes at it, and what becomes of the packet.
type Row<'a> = (u64, &'a [u8], Fate<'a>);

/// What became of a packet.
fn fate_of(outcome: &Result<Outcome, Memory>) -> Fate<'_> {
    match outcome {
        Ok(Outcome::Dropped(reason)) => Fate::Dropped(*reason),
        Ok(Outcome::Partial) => Fate::Partial,
        Ok(
            Outcome::Answered {
                fresh,
                changed,
                packets,
            },
        ) => match (*fresh, *changed, packets.len(), packets.get(0)) {
            (true, false, 1, Some(packet)) => Fate::Read(packet),
            (true, true, 1, Some(packet)) => Fate::Set(packet),
            (false, false, 1, Some(packet)) => Fate::Copy(packet),
            _ => Fate::Otherwise,
        },
        Err(_) => Fate::NoMemory,
    }
}

/// What a responder makes of these bytes, at a moment that is not before its last one.
fn receive<P: Platform>(
    rt: &impl Abort,
    responder: &mut Responder<P>,
    milliseconds: u64,
    bytes: &[u8],
) -> Result<Outcome, Memory> {
    let now = Moment::new(milliseconds).expect(rt, "a moment");
    let last = responder.last_moment();
    assert!(rt; last <= now);
    responder.receive(now, bytes)
}

/// Hands over a packet, and checks what becomes of it.
fn expect<P: Platform>(rt: &impl Abort, responder: &mut Responder<P>, row: &Row<'_>) {
    let (milliseconds, packet, expected) = row;
    let outcome = receive(rt, responder, *milliseconds, packet);
    assert_eq!(rt; fate_of(&outcome), *expected, "at {milliseconds}");
}

/// Hands over packets in turn, and checks what becomes of each.
fn play<P: Platform>(rt: &impl Abort, responder: &mut Responder<P>, rows: &[Row<'_>]) {
    for row in rows {
        expect(rt, responder, row);
    }
}

/// The same, with no memory to be had.
fn play_without_memory<P: Platform>(
    rt: &impl Abort,
    alloc: Global,
    responder: &mut Responder<P>,
    rows: &[Row<'_>],
) {
    let hoard = Hoard::take(alloc, 0).expect(rt, "a hoard");
    play(rt, responder, rows);
    drop(hoard);
}

/// A responder over this platform at endpoint 9, which keeps answers for a second.
fn at_9<P: Platform>(rt: &impl Abort, alloc: Global, platform: P) -> Responder<P> {
    let own = Eid::new(9).expect(rt, "an endpoint ID");
    let keep = Keep::new(1000).expect(rt, "a keeping time");
    Responder::new(alloc, own, keep, platform)
}

/// A light at endpoint 9 that keeps answers for a second.
fn light(rt: &impl Abort, alloc: Global) -> Responder<Dimmer> {
    at_9(rt, alloc, Dimmer::new(alloc).expect(rt, "memory"))
}

/// GetTID, and its answer.
const GET_TID: &[u8] = b"\x01\x09\x08\xc8\x01\x80\x00\x02";

const TID: &[u8] = b"\x01\x08\x09\xc0\x01\x00\x00\x02\x00\x01";

/// The same request on tag 2, and its answer.
const GET_TID_AGAIN: &[u8] = b"\x01\x09\x08\xca\x01\x80\x00\x02";

const TID_AGAIN: &[u8] = b"\x01\x08\x09\xc2\x01\x00\x00\x02\x00\x01";

/// Numeric effecter 1 is set to 40.
const SET_40: &[u8] = b"\x01\x09\x08\xc9\x01\x81\x02\x31\x01\x00\x00\x28";

const SET: &[u8] = b"\x01\x08\x09\xc1\x01\x01\x02\x31\x00";

/// The first packet of a message of several.
const START: &[u8] = b"\x01\x09\x08\x88\x01\x80";

#[test]
fn copy_is_answered_on_the_tag_that_it_came_on(rt: HostRuntime) {
    let mut light = light(&rt, rt.alloc());
    let rows = &[
        (0, GET_TID, Fate::Read(TID)),
        (1, GET_TID_AGAIN, Fate::Copy(TID_AGAIN)),
    ];
    play(&rt, &mut light, rows);
    assert_eq!(rt; (light.kept(), light.platform().asked()), (1, 1));
}

/// A packet with TO 0; then a message of two packets, of which the first is a part, with PLDM type 5.
fn expect_refusals(rt: &impl Abort, light: &mut Responder<Dimmer>) {
    let not_owner = b"\x01\x09\x08\xc0\x01\x80\x00\x02";
    let rows = &[
        (3, not_owner.as_slice(), Fate::Dropped(Reason::BadTag)),
        (4, START, Fate::Partial),
    ];
    play(rt, light, rows);
    assert_eq!(rt; light.pending(), 1);
    let end = b"\x01\x09\x08\x58\x05\x02";
    let code = b"\x01\x08\x09\xc0\x01\x00\x05\x02\x20";
    expect(rt, light, &(4, end, Fate::Read(code)));
    assert_eq!(rt;
        (light.pending(), light.kept(), light.last_moment().get()),
        (0, 1, 4)
    );
}

#[test]
fn reading_and_refusals(rt: HostRuntime) {
    let mut light = light(&rt, rt.alloc());
    assert_eq!(rt; light.set_reading(2, 7), Err(ReadingFault::NoSuchSensor));
    assert_eq!(rt; light.set_reading(1, 7), Ok(()));
    expect_refusals(&rt, &mut light);
    let platform = light.into_platform();
    assert_eq!(rt; (platform.level(), platform.asked()), (7, 0));
}

/// After a first answer, with no memory: a copy, a fresh request whose slot is there, a packet that is
/// dropped, and the start of a message, which wants memory.
#[test]
fn copies_and_drops_allocate_nothing(rt: HostRuntime) {
    let mut light = light(&rt, rt.alloc());
    expect(&rt, &mut light, &(0, GET_TID, Fate::Read(TID)));
    let rows = &[
        (1, GET_TID_AGAIN, Fate::Copy(TID_AGAIN)),
        (1000, GET_TID, Fate::Read(TID)),
        (1000, &GET_TID[..3], Fate::Dropped(Reason::Short)),
        (1001, START, Fate::NoMemory),
    ];
    play_without_memory(&rt, rt.alloc(), &mut light, rows);
    assert_eq!(rt; (light.pending(), light.last_moment().get()), (0, 1000));
}

/// The device of the example behind its responder.
fn example(rt: &impl Abort, alloc: Global) -> Responder<SimDevice> {
    let text = description(alloc).expect(rt, "memory");
    let Description {
        eid,
        keep,
        device,
        ..
    } = Description::read(alloc, text.as_bytes()).expect(rt, "a description");
    Responder::new(alloc, eid, keep, device)
}

/// A restart at 100.
fn restart(rt: &impl Abort, device: &mut Responder<SimDevice>) {
    let now = Moment::new(100).expect(rt, "a moment");
    let last = device.last_moment();
    assert!(rt; last <= now);
    device.restart(now);
    assert_eq!(rt; device.kept(), 0);
}

#[test]
fn restart_forgets_and_is_busy_for_the_keeping_time(rt: HostRuntime) {
    let mut device = example(&rt, rt.alloc());
    expect(&rt, &mut device, &(0, SET_40, Fate::Set(SET)));
    restart(&rt, &mut device);
    let not_ready = b"\x01\x08\x09\xc1\x01\x01\x02\x31\x04";
    let rows = &[
        (1099, SET_40, Fate::Copy(not_ready)),
        (1100, SET_40, Fate::Set(SET)),
    ];
    play(&rt, &mut device, rows);
}

/// A message in three packets, after an answer to its source, with no memory after the first.
#[test]
fn only_a_start_packet_needs_memory(rt: HostRuntime) {
    let mut device = example(&rt, rt.alloc());
    let rows = &[(0, SET_40, Fate::Set(SET)), (2, START, Fate::Partial)];
    play(&rt, &mut device, rows);
    let middle = b"\x01\x09\x08\x18\x00\x01".as_slice();
    let end = b"\x01\x09\x08\x68\x05".as_slice();
    let set_tid = b"\x01\x08\x09\xc0\x01\x00\x00\x01\x00";
    let rows = &[(2, middle, Fate::Partial), (2, end, Fate::Set(set_tid))];
    play_without_memory(&rt, rt.alloc(), &mut device, rows);
}

/// GetTID from a source with an instance ID.
fn get_tid_from(source: u8, id: u8) -> [u8; 8] {
    [0x01, 0x09, source, 0xc8, 0x01, 0x80 | id, 0x00, 0x02]
}

/// Whether GetTID from a source with an instance ID is performed at a moment, and no copy.
fn is_performed(
    rt: &impl Abort,
    light: &mut Responder<Dimmer>,
    milliseconds: u64,
    source: u8,
    id: u8,
) -> bool {
    match receive(rt, light, milliseconds, &get_tid_from(source, id)) {
        Ok(Outcome::Answered { fresh, .. }) => fresh,
        _ => panic!(rt; "no answer"),
    }
}

/// How many of the GetTID requests of each other source and instance ID are performed at a moment.
fn fresh_at(rt: &impl Abort, light: &mut Responder<Dimmer>, milliseconds: u64) -> u32 {
    let mut count = 0u32;
    for source in MIN_EID..=MAX_EID {
        if source == 9 {
            continue;
        }
        for id in 0..INSTANCE_IDS {
            let is_performed = is_performed(rt, light, milliseconds, source, id);
            count = count.saturating_add(u32::from(is_performed));
        }
    }
    count
}

/// Every pair is performed once in the keeping time, and has a slot.
fn fill_all_slots(rt: &impl Abort, light: &mut Responder<Dimmer>) {
    assert_eq!(rt; fresh_at(rt, light, 0), 7872);
    assert_eq!(rt; light.kept(), 7872);
    assert_eq!(rt; fresh_at(rt, light, 999), 0);
    assert_eq!(rt; fresh_at(rt, light, 1000), 7872);
    assert_eq!(rt; (light.kept(), light.platform().performed()), (7872, 15744));
}

#[test]
fn every_pair_has_a_slot(rt: HostRuntime) {
    fill_all_slots(&rt, &mut light(&rt, rt.alloc()));
}

/// With no memory after the first request of a source no other of its instance IDs wants any, and
/// another source does.
fn fill_a_row(rt: &impl Abort, alloc: Global, light: &mut Responder<Dimmer>) {
    expect(rt, light, &(0, &get_tid_from(8, 0), Fate::Read(TID)));
    let hoard = Hoard::take(alloc, 0).expect(rt, "a hoard");
    for id in 1..INSTANCE_IDS {
        assert!(rt; is_performed(rt, light, 0, 8, id), "{id}");
    }
    expect(rt, light, &(0, &get_tid_from(10, 0), Fate::NoMemory));
    drop(hoard);
}

#[test]
fn first_request_allocates_for_all_instance_ids(rt: HostRuntime) {
    let mut light = light(&rt, rt.alloc());
    fill_a_row(&rt, rt.alloc(), &mut light);
    assert_eq!(rt; light.kept(), 32);
}
