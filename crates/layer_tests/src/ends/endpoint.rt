//! An endpoint over a device that is outside, in two steps.

use crate::hoard::Hoard;
use mctp_packet::{Eid, Keep, Moment, Reason};
use pldm_endpoint::{AnswerRefusal, CommandHandle, Endpoint, ReceiveRefusal, Step};
use pldm_responder::{Bounds, Outcome, ResponderSettings};
use pldm_wire::{Answer, Command, PassThrough};
use std::alloc::Global;
use std::process::Abort;

/// What becomes of a packet at an endpoint.
#[derive(Clone, Copy, Debug, PartialEq, Eq)]
enum Fate<'a> {
    /// Its command is to be performed.
    Perform,
    /// It is to be responded to.
    Respond,
    /// It is dropped.
    Dropped(Reason),
    /// It is a part of a message.
    Partial,
    /// It was performed now, and this packet answers it.
    Fresh(&'a [u8]),
    /// It is not performed, and this packet answers it.
    Copy(&'a [u8]),
    /// It is refused.
    Refused(ReceiveRefusal),
}

/// A moment, a packet that comes at it, and what becomes of the packet.
type Row<'a> = (u64, &'a [u8], Fate<'a>);

/// What became of a packet that is done with.
fn outcome_fate(outcome: &Outcome) -> Fate<'_> {
    match outcome {
        Outcome::Dropped(reason) => Fate::Dropped(*reason),
        Outcome::Partial => Fate::Partial,
        Outcome::Answered { fresh, packets, .. } => {
            let packet = packets.get(0).unwrap_or(&[]);
            if *fresh {
                Fate::Fresh(packet)
            } else {
                Fate::Copy(packet)
            }
        }
    }
}

/// What became of a packet.
fn fate_of(step: &Result<Step, ReceiveRefusal>) -> Fate<'_> {
    match step {
        Ok(Step::Perform(_)) => Fate::Perform,
        Ok(Step::Respond(_)) => Fate::Respond,
        Ok(Step::Done(outcome)) => outcome_fate(outcome),
        Err(refusal) => Fate::Refused(*refusal),
    }
}

/// What an endpoint makes of a packet at a moment that is not before its last one.
fn receive(
    rt: &impl Abort,
    endpoint: &mut Endpoint,
    milliseconds: u64,
    packet: &[u8],
) -> Result<Step, ReceiveRefusal> {
    let now = Moment::new(milliseconds).expect(rt, "a moment");
    let last = endpoint.last_moment();
    assert!(rt; last <= now);
    endpoint.receive(now, packet)
}

/// Hands over a packet, and checks what becomes of it.
fn expect(rt: &impl Abort, endpoint: &mut Endpoint, row: &Row<'_>) {
    let (milliseconds, packet, expected) = row;
    let step = receive(rt, endpoint, *milliseconds, packet);
    assert_eq!(rt; fate_of(&step), *expected, "at {milliseconds}");
}

/// Hands over packets in turn, and checks what becomes of each.
fn play(rt: &impl Abort, endpoint: &mut Endpoint, rows: &[Row<'_>]) {
    for row in rows {
        expect(rt, endpoint, row);
    }
}

/// The handle of the command that a packet has performed.
fn hand_out(
    rt: &impl Abort,
    endpoint: &mut Endpoint,
    milliseconds: u64,
    packet: &[u8],
) -> CommandHandle {
    match receive(rt, endpoint, milliseconds, packet) {
        Ok(Step::Perform(handle)) => handle,
        _ => panic!(rt; "nothing to be performed"),
    }
}

/// Gives the device's answer, and checks that this packet goes out.
fn expect_answer(
    rt: &impl Abort,
    endpoint: &mut Endpoint,
    handle: &CommandHandle,
    answer: &Answer,
    packet: &[u8],
) {
    let outcome = endpoint.answer(handle, answer).expect(rt, "an answer");
    assert_eq!(rt; outcome_fate(&outcome), Fate::Fresh(packet));
}

/// Gives the device's answer, and checks why it is refused.
fn expect_refusal(
    rt: &impl Abort,
    endpoint: &mut Endpoint,
    handle: &CommandHandle,
    answer: &Answer,
    refusal: AnswerRefusal,
) {
    assert_eq!(rt; endpoint.answer(handle, answer).err(), Some(refusal));
}

/// An endpoint that keeps the answers to so many sources for a second, and has at most so many commands
/// pending and messages open at a time.
fn bounded(
    rt: &impl Abort,
    alloc: Global,
    own: Option<Eid>,
    sources: usize,
    commands: usize,
    open_messages: usize,
) -> Endpoint {
    let keep = Keep::new(1000).expect(rt, "a keeping time");
    let bounds = Bounds {
        sources,
        open_messages,
    };
    let keeping = ResponderSettings::each_for(keep);
    Endpoint::new(alloc, own, keeping, PassThrough::NONE, bounds, commands)
}

/// Endpoint 9, with at most one message open.
fn endpoint(rt: &impl Abort, alloc: Global, sources: usize, commands: usize) -> Endpoint {
    bounded(rt, alloc, Eid::new(9), sources, commands, 1)
}

/// GetTID of endpoint 8 to endpoint 9, with instance ID 0.
const GET_TID: &[u8] = b"\x01\x09\x08\xc8\x01\x80\x00\x02";

/// The same from endpoint 10.
const GET_TID_OF_ANOTHER: &[u8] = b"\x01\x09\x0a\xc8\x01\x80\x00\x02";

/// The response to the first: terminus ID 5.
const TID_IS_5: &[u8] = b"\x01\x08\x09\xc0\x01\x00\x00\x02\x00\x05";

/// SetTID to 7 of endpoint 8 to endpoint 9, with instance ID 0.
const SET_TID: &[u8] = b"\x01\x09\x08\xc8\x01\x80\x00\x01\x07";

/// The device's answers: terminus ID 5, and 6.
const TID_5: Answer = Answer::GetTid { tid: 5 };

const TID_6: Answer = Answer::GetTid { tid: 6 };

/// Hands out a GetTID, and checks what is refused while it is pending.
fn hand_out_one(rt: &impl Abort, endpoint: &mut Endpoint) -> CommandHandle {
    let handle = hand_out(rt, endpoint, 0, GET_TID);
    assert!(rt; matches!(endpoint.command(&handle), Some(Command::GetTid)));
    let rows = &[
        (1, GET_TID, Fate::Refused(ReceiveRefusal::BeingPerformed)),
        (1, SET_TID, Fate::Refused(ReceiveRefusal::Performing)),
        (1, GET_TID_OF_ANOTHER, Fate::Refused(ReceiveRefusal::Full)),
    ];
    play(rt, endpoint, rows);
    handle
}

#[test]
fn a_copy_gets_the_answer_that_the_device_gave(rt: HostRuntime) {
    let mut endpoint = endpoint(&rt, rt.alloc(), 1, 1);
    let handle = hand_out_one(&rt, &mut endpoint);
    let wrong = AnswerRefusal::OtherCommand;
    expect_refusal(&rt, &mut endpoint, &handle, &Answer::SetTid, wrong);
    expect_answer(&rt, &mut endpoint, &handle, &TID_5, TID_IS_5);
    let late = AnswerRefusal::NotPending;
    expect_refusal(&rt, &mut endpoint, &handle, &TID_6, late);
    expect(&rt, &mut endpoint, &(999, GET_TID, Fate::Copy(TID_IS_5)));
    assert_eq!(rt; endpoint.kept(), 1);
}

/// Requests of two packets each: a GetTID of endpoint 8 with instance ID 2, and one of endpoint 10 with instance ID 3.
const BEGUN: &[u8] = b"\x01\x09\x08\x8a\x01\x82";

const LAST: &[u8] = b"\x01\x09\x08\x5a\x00\x02";

const BEGUN_BY_ANOTHER: &[u8] = b"\x01\x09\x0a\x8b\x01\x83";

const LAST_OF_ANOTHER: &[u8] = b"\x01\x09\x0a\x5b\x00\x02";

/// The same of endpoint 11, with instance ID 4.
const BEGUN_BY_A_THIRD: &[u8] = b"\x01\x09\x0b\x8c\x01\x84";

#[test]
fn the_oldest_open_message_ends_for_a_new_one(rt: HostRuntime) {
    let mut endpoint = bounded(&rt, rt.alloc(), Eid::new(9), 2, 2, 2);
    let stray = Fate::Dropped(Reason::UnexpectedMiddleOrEnd);
    let rows = &[
        (0, BEGUN, Fate::Partial),
        (0, BEGUN_BY_ANOTHER, Fate::Partial),
        // Begun once more, that of endpoint 8 is the youngest.
        (0, BEGUN, Fate::Partial),
        (0, BEGUN_BY_A_THIRD, Fate::Partial),
        (0, LAST_OF_ANOTHER, stray),
        (0, LAST, Fate::Perform),
    ];
    play(&rt, &mut endpoint, rows);
}

/// How many bytes more there are after each refusal.
const STEP: usize = 16;

/// Whether a command of endpoint 8 is handed out at 0, or another step comes of it. Where it is refused, it uses up no
/// source.
fn is_taken(rt: &impl Abort, endpoint: &mut Endpoint) -> bool {
    let is_taken = receive(rt, endpoint, 0, GET_TID).is_ok();
    if !is_taken {
        assert_eq!(rt;
            (endpoint.sources(), endpoint.pending(), endpoint.kept()),
            (0, 0, 0)
        );
    }
    is_taken
}

/// Has a command of endpoint 8 handed out with no memory at first, and with a little more after each refusal, at most
/// so many times: how often it was refused. No refusal uses up the one source that there is room for.
fn refusals(rt: &impl Abort, alloc: Global, endpoint: &mut Endpoint, most: u32) -> u32 {
    let mut hoard = Hoard::take(alloc, 0).expect(rt, "a hoard");
    for count in 0..most {
        if is_taken(rt, endpoint) {
            return count;
        }
        hoard.give(STEP);
    }
    most
}

/// How many refusals there are before a command is handed out at an endpoint with one source.
fn all_refusals(rt: &impl Abort, alloc: Global) -> u32 {
    let mut served = endpoint(rt, alloc, 1, 1);
    let all = refusals(rt, alloc, &mut served, 4_000);
    assert!(rt; all > 1, "{all} refusals");
    assert_eq!(rt; (served.sources(), served.pending()), (1, 1));
    all
}

/// Checks that another source is served after so many refusals.
fn serve_another(rt: &impl Abort, alloc: Global, most: u32) {
    let mut lost = endpoint(rt, alloc, 1, 1);
    assert_eq!(rt; refusals(rt, alloc, &mut lost, most), most);
    expect(rt, &mut lost, &(1, GET_TID_OF_ANOTHER, Fate::Perform));
}

#[test]
fn refused_growths_use_up_no_source(rt: HostRuntime) {
    let all = all_refusals(&rt, rt.alloc());
    for most in [1, all / 2, all - all / 8] {
        serve_another(&rt, rt.alloc(), most);
    }
}
