//! A requester by itself: requests that it opens, sends again and gives up, and answers that it takes.

ghost use Rattle.std.specs.Prelude.{◌≤◌};
ghost use Rattle.pldm_requester.specs.Slots.{held_of};

use crate::hoard::Hoard;
use mctp_packet::{Eid, Keep, Memory, Moment, Reason};
use pldm_requester::{Due, Got, OpenFault, Requester, Status, Timing, TimingFault};
use pldm_wire::Command;
use std::alloc::Global;
use std::process::Abort;

mod any_type;
mod paces;
mod refused_growths;

/// The endpoint ID of this number.
fn eid(rt: &impl Abort, number: u8) -> Eid {
    Eid::new(number).expect(rt, "an endpoint ID")
}

/// A requester at endpoint 8 for this device, with a keeping time of a second.
fn made(
    rt: &impl Abort,
    alloc: Global,
    device: u8,
    timeout: u32,
    tries: u8,
) -> Result<Requester, TimingFault> {
    let timing = Timing {
        keep: Keep::new(1000).expect(rt, "a keeping time"),
        timeout,
        tries,
    };
    Requester::new(alloc, eid(rt, 8), eid(rt, device), timing)
}

/// A requester for device 9, with three tries of 200 milliseconds.
fn requester(rt: &impl Abort, alloc: Global) -> Requester {
    made(rt, alloc, 9, 200, 3).expect(rt, "a requester")
}

/// A moment that is not before the requester's last one.
fn moment(rt: &impl Abort, requester: &Requester, milliseconds: u64) -> Moment
    ensures { (held_of requester.now).last ≤ result }
{
    let now = Moment::new(milliseconds).expect(rt, "a moment");
    let last = requester.last_moment();
    assert!(rt; last <= now);
    now
}

/// Opens a request for GetTID: its number, instance ID and tag.
fn open(
    rt: &impl Abort,
    requester: &mut Requester,
    milliseconds: u64,
) -> Result<(u64, u8, u8), OpenFault> {
    let now = moment(rt, requester, milliseconds);
    match requester.open(now, &Command::GetTid) {
        Ok(opened) => Ok((opened.number, opened.id, opened.tag.get())),
        Err(fault) => Err(fault),
    }
}

/// What the requester makes of these bytes.
fn receive(
    rt: &impl Abort,
    requester: &mut Requester,
    milliseconds: u64,
    bytes: &[u8],
) -> Result<Got, Memory> {
    let now = moment(rt, requester, milliseconds);
    requester.receive(now, bytes)
}

/// The packet that answers GetTID on this tag and with this instance ID: terminus ID 1.
fn answer(tag: u8, id: u8) -> [u8; 10] {
    [
        0x01,
        0x08,
        0x09,
        0xc0 | tag,
        0x01,
        id,
        0x00,
        0x02,
        0x00,
        0x01,
    ]
}

/// The message in it, with instance ID 0.
const TID: &[u8] = b"\x01\x00\x00\x02\x00\x01";

/// Opens 32 requests at 0, each of which is answered.
fn open_and_answer(rt: &impl Abort, requester: &mut Requester) {
    for id in 0..32u8 {
        let (number, tag) = (u64::from(id), id % 8);
        assert_eq!(rt; open(rt, requester, 0), Ok((number, id, tag)));
        let got = receive(rt, requester, 0, &answer(tag, id));
        assert_eq!(rt; got, Ok(Got::Answered(number)));
    }
}

/// Opens two more requests: the first comes too early, and the second takes the place of request 0.
fn open_two_more(rt: &impl Abort, requester: &mut Requester) {
    for (milliseconds, opened, last, count) in [
        (1999, Err(OpenFault::IdInUse), 0, 32),
        (2000, Ok((32, 0, 0)), 2000, 33),
    ] {
        assert_eq!(rt; open(rt, requester, milliseconds), opened);
        assert_eq!(rt;
            (requester.last_moment().get(), requester.count()),
            (last, count)
        );
    }
    assert!(rt; requester.status(0).is_none() && requester.packets(0).is_none());
    assert_eq!(rt;
        requester.status(1),
        Some(Status::Answered(&answer(1, 1)[4..]))
    );
}

#[test]
fn instance_id_is_free_after_twice_the_keeping_time(rt: HostRuntime) {
    let mut requester = requester(&rt, rt.alloc());
    open_and_answer(&rt, &mut requester);
    open_two_more(&rt, &mut requester);
}

/// What opening the request of this number gives, while all before it are open.
fn opened_beside(number: u8) -> Result<(u64, u8, u8), OpenFault> {
    if number < 8 {
        Ok((u64::from(number), number, number))
    } else {
        Err(OpenFault::TagInUse)
    }
}

#[test]
fn ninth_open_request_has_no_tag(rt: HostRuntime) {
    let mut requester = requester(&rt, rt.alloc());
    for number in 0..9u8 {
        assert_eq!(rt; open(&rt, &mut requester, 0), opened_beside(number));
    }
}

/// Hands over packets that are no answer to the open request 0.
fn answer_in_vain(rt: &impl Abort, requester: &mut Requester) {
    let mut not_ready = answer(0, 0);
    not_ready[8] = 0x04;
    for (bytes, reason) in [
        (answer(1, 0), Reason::BadTag),
        (answer(0, 0x80), Reason::NotResponse),
        (answer(0, 1), Reason::NotMine),
        (not_ready, Reason::NotReady),
    ] {
        let got = receive(rt, requester, 0, &bytes);
        assert_eq!(rt; got, Ok(Got::Dropped(reason)));
        assert_eq!(rt; requester.status(0), Some(Status::Open));
    }
}

/// Hands over the answer to the open request 0, twice.
fn answer_twice(rt: &impl Abort, requester: &mut Requester) {
    for expected in [Got::Answered(0), Got::Dropped(Reason::BadTag)] {
        let got = receive(rt, requester, 0, &answer(0, 0));
        assert_eq!(rt; got, Ok(expected));
        assert_eq!(rt; requester.status(0), Some(Status::Answered(TID)));
    }
}

/// Checks that request 0 is written as this packet.
fn expect_packet(rt: &impl Abort, requester: &Requester, packet: &[u8]) {
    let packets = requester.packets(0).expect(rt, "packets");
    assert_eq!(rt; packets.get(0), Some(packet));
}

#[test]
fn only_its_own_response_answers_a_request(rt: HostRuntime) {
    let mut requester = requester(&rt, rt.alloc());
    assert!(rt; open(&rt, &mut requester, 0).is_ok());
    expect_packet(&rt, &requester, b"\x01\x09\x08\xc8\x01\x80\x00\x02");
    let hoard = Hoard::take(rt.alloc(), 0).expect(&rt, "a hoard");
    answer_in_vain(&rt, &mut requester);
    answer_twice(&rt, &mut requester);
    drop(hoard);
}

/// A moment, the requests that are sent again at it, and those that are given up.
type Tick<'a> = (u64, &'a [u64], &'a [u64]);

/// Whether these requests are due.
fn is_due(due: &Due, again: &[u64], given_up: &[u64]) -> bool {
    due.again.as_slice() == again && due.given_up.as_slice() == given_up
}

/// Ticks at a moment, and checks which requests are sent again, and which are given up.
fn expect_due(rt: &impl Abort, requester: &mut Requester, tick: &Tick<'_>) {
    let (milliseconds, again, given_up) = tick;
    let now = moment(rt, requester, *milliseconds);
    let due = requester.tick(now);
    assert!(rt; is_due(&due, again, given_up), "{due:?}");
}

/// Ticks a requester whose request 0 is open, until it is given up.
fn tick_in_turn(rt: &impl Abort, requester: &mut Requester, ticks: &[Tick<'_>]) {
    for tick in ticks {
        expect_due(rt, requester, tick);
    }
    assert_eq!(rt; requester.status(0), Some(Status::GaveUp));
}

/// Opens a request at 0, and then ticks, with no memory to be had.
fn tick_all(rt: &impl Abort, alloc: Global, ticks: &[Tick<'_>]) {
    let mut requester = requester(rt, alloc);
    assert!(rt; open(rt, &mut requester, 0).is_ok());
    let hoard = Hoard::take(alloc, 0).expect(rt, "a hoard");
    tick_in_turn(rt, &mut requester, ticks);
    drop(hoard);
}

#[test]
fn request_is_sent_again_and_given_up(rt: HostRuntime) {
    tick_all(
        &rt,
        rt.alloc(),
        &[
            (199, &[], &[]),
            (200, &[0], &[]),
            (399, &[], &[]),
            (400, &[0], &[]),
            (599, &[], &[]),
            (600, &[], &[0]),
        ],
    );
}

#[test]
fn late_tick_gives_up(rt: HostRuntime) {
    tick_all(&rt, rt.alloc(), &[(650, &[], &[0])]);
}

/// Why no requester is made, if none is.
fn timing_fault(
    rt: &impl Abort,
    alloc: Global,
    device: u8,
    timeout: u32,
    tries: u8,
) -> Option<TimingFault> {
    made(rt, alloc, device, timeout, tries).err()
}

#[test]
fn timings(rt: HostRuntime) {
    for (device, timeout, tries, fault) in [
        (9, 0, 9, Some(TimingFault::Timeout)),
        (9, 200, 0, Some(TimingFault::Tries)),
        (9, 200, 9, Some(TimingFault::Tries)),
        (9, 334, 3, Some(TimingFault::TooLate)),
        (9, 250, 4, None),
        (8, 250, 4, Some(TimingFault::SameEid)),
    ] {
        let made = timing_fault(&rt, rt.alloc(), device, timeout, tries);
        assert_eq!(rt; made, fault);
    }
}

#[test]
fn faults_are_reported(rt: HostRuntime) {
    let timing = TimingFault::TooLate
        .to_string(rt.alloc())
        .expect(&rt, "memory");
    let open = OpenFault::IdInUse
        .to_string(rt.alloc())
        .expect(&rt, "memory");
    assert_eq!(rt;
        timing.as_str(),
        "the tries take longer than the keeping time"
    );
    assert_eq!(rt; open.as_str(), "the next instance ID is in use");
}
