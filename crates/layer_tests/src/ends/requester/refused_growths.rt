//! Each growth of a run is refused in turn: a call finds no memory at first, and is made again with a
//! little more after each refusal.

use super::*;
use arrayvec::ArrayVec;
use mctp_packet::MAX_PACKET_BYTES;

/// How many bytes more there are after each refusal.
const STEP: usize = 32;

/// More refusals than one call meets.
const MAX_REFUSALS: usize = 4_000;

/// A requester and all memory but a little.
#[derive(Drop)]
struct Short {
    requester: Requester,
    hoard: Hoard,
    refusals: u32,
}

impl Short {
    fn new(rt: &impl Abort, alloc: Global) -> Short {
        Short {
            requester: requester(rt, alloc),
            hoard: Hoard::take(alloc, 0).expect(rt, "a hoard"),
            refusals: 0,
        }
    }

    /// Takes what memory there is.
    fn take_rest(&mut self, rt: &impl Abort) {
        self.hoard.take_rest().expect(rt, "room in the hoard");
    }

    /// Counts a refusal, which has to leave the requester as it was, and gives a little memory back.
    fn refuse(&mut self, rt: &impl Abort, count: u64, last: Moment) {
        assert_eq!(rt;
            (self.requester.count(), self.requester.last_moment()),
            (count, last)
        );
        self.refusals = self.refusals.saturating_add(1);
        self.hoard.give(STEP);
    }

    /// Opens a request.
    fn open(
        &mut self,
        rt: &impl Abort,
        milliseconds: u64,
        command: &Command,
    ) -> Result<(u64, u8, u8), OpenFault> {
        self.take_rest(rt);
        for _ in 0..MAX_REFUSALS {
            let (count, last) = (self.requester.count(), self.requester.last_moment());
            let now = moment(rt, &self.requester, milliseconds);
            match self.requester.open(now, command) {
                Ok(opened) => return Ok((opened.number, opened.id, opened.tag.get())),
                Err(OpenFault::Memory(_)) => self.refuse(rt, count, last),
                Err(fault) => return Err(fault),
            }
        }
        panic!(rt; "never opened")
    }

    /// What the requester makes of a packet.
    fn receive(&mut self, rt: &impl Abort, bytes: &[u8]) -> Got {
        self.take_rest(rt);
        for _ in 0..MAX_REFUSALS {
            let (count, last) = (self.requester.count(), self.requester.last_moment());
            match receive(rt, &mut self.requester, last.get(), bytes) {
                Ok(got) => return got,
                Err(_) => self.refuse(rt, count, last),
            }
        }
        panic!(rt; "never taken")
    }
}

/// Opens 32 requests, each of which is answered, and then two more.
fn open_and_answer(rt: &impl Abort, short: &mut Short) {
    for id in 0..32u8 {
        let (number, tag) = (u64::from(id), id % 8);
        let opened = short.open(rt, 0, &Command::GetTid);
        assert_eq!(rt; opened, Ok((number, id, tag)));
        let got = short.receive(rt, &answer(tag, id));
        assert_eq!(rt; got, Got::Answered(number));
    }
    for (milliseconds, expected) in [(1999, Err(OpenFault::IdInUse)), (2000, Ok((32, 0, 0)))] {
        let opened = short.open(rt, milliseconds, &Command::GetTid);
        assert_eq!(rt; opened, expected);
    }
}

#[test]
fn each_growth_of_the_openings_is_refused_in_turn(rt: HostRuntime) {
    let mut short = Short::new(&rt, rt.alloc());
    open_and_answer(&rt, &mut short);
    assert!(rt; short.refusals > 32, "{} refusals", short.refusals);
}

#[test]
fn each_growth_of_nine_openings_is_refused_in_turn(rt: HostRuntime) {
    let mut short = Short::new(&rt, rt.alloc());
    for number in 0..9u8 {
        let opened = short.open(&rt, 0, &Command::GetTid);
        assert_eq!(rt; opened, opened_beside(number));
    }
}

/// Hands over packets that are no answer to the open request 0, then its answer, twice.
fn answer_at_last(rt: &impl Abort, short: &mut Short) {
    for (bytes, expected) in [
        (answer(1, 0), Got::Dropped(Reason::BadTag)),
        (answer(0, 0x80), Got::Dropped(Reason::NotResponse)),
        (answer(0, 1), Got::Dropped(Reason::NotMine)),
        (answer(0, 0), Got::Answered(0)),
        (answer(0, 0), Got::Dropped(Reason::BadTag)),
    ] {
        assert_eq!(rt; short.receive(rt, &bytes), expected);
    }
}

#[test]
fn each_growth_before_an_answer_is_refused_in_turn(rt: HostRuntime) {
    let mut short = Short::new(&rt, rt.alloc());
    assert_eq!(rt; short.open(&rt, 0, &Command::GetTid), Ok((0, 0, 0)));
    answer_at_last(&rt, &mut short);
}

/// The first part of the example's record: 239 of its 300 bytes, of which only the first ten are not 0.
const FRONT: &[u8] = b"\x01\x00\x02\x51\0\0\0\0\0\xef\0\0\0\0\xef\0\x01\0\0\0\x01\x01\0\0\x22\x01";

/// The answer with the first part of the example's record.
fn first_part() -> [u8; 255] {
    let mut message = [0; 255];
    message[..FRONT.len()].copy_from_slice(FRONT);
    message
}

/// A packet of the answer: its flags, and which piece of the message it has.
fn packet_of(
    rt: &impl Abort,
    message: &[u8],
    flags: u8,
    piece: usize,
) -> ArrayVec<u8, MAX_PACKET_BYTES> {
    let payload = message.chunks(64).nth(piece).expect(rt, "a piece");
    let mut packet = ArrayVec::new();
    packet
        .try_extend_from_slice(&[0x01, 0x08, 0x09, flags])
        .expect(rt, "room");
    packet.try_extend_from_slice(payload).expect(rt, "room");
    packet
}

/// Hands over pieces of a message: which, with which flags, and what the requester makes of it.
fn receive_pieces(rt: &impl Abort, short: &mut Short, message: &[u8], pieces: &[(usize, u8, Got)]) {
    for (piece, flags, expected) in pieces {
        let packet = packet_of(rt, message, *flags, *piece);
        assert_eq!(rt; short.receive(rt, &packet), *expected, "{piece}");
    }
}

/// A requester that has asked for the first part of the example's record.
fn asked(rt: &impl Abort, alloc: Global) -> Short {
    let record = Command::GetPdr {
        record_handle: 0,
        data_transfer_handle: 0,
        transfer_operation_flag: 1,
        request_count: 239,
        record_change_number: 0,
    };
    let mut short = Short::new(rt, alloc);
    assert_eq!(rt; short.open(rt, 0, &record), Ok((0, 0, 0)));
    short
}

/// An answer of four packets, some early, some twice.
#[test]
fn each_growth_of_an_answer_is_refused_in_turn(rt: HostRuntime) {
    let mut short = asked(&rt, rt.alloc());
    let message = first_part();
    let pieces = &[
        (1, 0x10, Got::Dropped(Reason::UnexpectedMiddleOrEnd)),
        (0, 0x80, Got::Partial),
        (0, 0x80, Got::Partial),
        (1, 0x10, Got::Partial),
        (2, 0x20, Got::Partial),
        (3, 0x70, Got::Answered(0)),
        (3, 0x70, Got::Dropped(Reason::BadTag)),
    ];
    receive_pieces(&rt, &mut short, &message, pieces);
    assert!(rt; short.refusals > 1, "{} refusals", short.refusals);
    assert_eq!(rt; short.requester.status(0), Some(Status::Answered(&message)));
}

/// A device may number the packets of an answer from any number on.
#[test]
fn answer_that_is_numbered_from_three_is_accepted(rt: HostRuntime) {
    let mut short = asked(&rt, rt.alloc());
    let pieces = &[
        (0, 0xb0, Got::Partial),
        (1, 0x00, Got::Partial),
        (2, 0x10, Got::Partial),
        (3, 0x60, Got::Answered(0)),
    ];
    receive_pieces(&rt, &mut short, &first_part(), pieces);
}
