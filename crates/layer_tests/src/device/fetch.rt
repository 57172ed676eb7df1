//! Records fetched in parts.

use crate::device::platforms::{answer, example};
use crate::expect::expect_eq;
use crate::hoard::Hoard;
use mctp_packet::Memory;
use pldm_device::{Fetch, FetchFault, FetchState, Platform, RECORD_HEADER};
use pldm_wire::{Answer, Code, Command, RecordPart, TransferFlag};
use std::alloc::{AllocError, Global};
use std::process::Abort;

/// The bytes of the example's record.
fn record() -> [u8; 300] {
    let mut record = [0; 300];
    record[..RECORD_HEADER].copy_from_slice(&[1, 0, 0, 0, 1, 1, 0, 0, 0x22, 0x01]);
    record
}

/// The request for the part of record 1 at this offset.
fn request(transfer_operation_flag: u8, offset: u32) -> Command {
    Command::GetPdr {
        record_handle: 1,
        data_transfer_handle: offset,
        transfer_operation_flag,
        request_count: 303,
        record_change_number: 0,
    }
}

/// The answer with a part.
fn part(
    rt: &impl Abort,
    flag: TransferFlag,
    next: u32,
    bytes: &[u8],
    checksum: Option<u8>,
) -> Answer {
    Answer::GetPdr {
        next_record_handle: 0,
        next_data_transfer_handle: next,
        part: RecordPart::new(flag, bytes, checksum).expect(rt, "a part"),
    }
}

/// This is a fetch's next request.
fn is_next(rt: &impl Abort, fetch: &Fetch, request: Option<&Command>) {
    expect_eq(rt, fetch.next().as_ref(), request, "next");
}

/// A fetch makes this of an answer.
fn is_taken(
    rt: &impl Abort,
    fetch: &mut Fetch,
    answer: &Answer,
    wanted: Result<FetchState, FetchFault>,
) {
    expect_eq(rt, fetch.take(answer), wanted, answer);
}

/// The first answer of the example device to a fetch.
fn first_answer(rt: &impl Abort, alloc: Global, fetch: &Fetch) -> Answer {
    let request = fetch.next().expect(rt, "a request");
    example(rt, alloc)
        .perform(alloc, &request)
        .expect(rt, "memory")
}

/// A record that came whole is kept, and no further answer is taken.
fn takes_whole(rt: &impl Abort, fetch: &mut Fetch, whole: &Answer) {
    is_taken(rt, fetch, whole, Ok(FetchState::Done(0)));
    expect_eq(rt, fetch.record(), Some(record().as_slice()), "whole");
    is_next(rt, fetch, None);
    is_taken(rt, fetch, whole, Err(FetchFault::Unexpected));
    expect_eq(rt, fetch.record(), Some(record().as_slice()), "still");
}

#[test]
fn the_example_record_is_fetched(rt: HostRuntime) {
    let mut fetch = Fetch::new(rt.alloc(), 1);
    is_next(&rt, &fetch, Some(&request(1, 0)));
    expect_eq(&rt, fetch.record(), None, "at first");
    let whole = first_answer(&rt, rt.alloc(), &fetch);
    let wanted = part(&rt, TransferFlag::StartAndEnd, 0, &record(), None);
    expect_eq(&rt, &whole, &wanted, "the answer");
    takes_whole(&rt, &mut fetch, &whole);
}

/// The transfer handle and the record change number of a fetch's next request.
fn asked(fetch: &Fetch) -> Option<(u32, u16)> {
    match fetch.next() {
        Some(
            Command::GetPdr {
                data_transfer_handle,
                record_change_number,
                ..
            },
        ) => Some((data_transfer_handle, record_change_number)),
        _ => None,
    }
}

/// The flag of the part of one byte at this place, and the state of the fetch then.
fn at_byte(place: u32) -> (TransferFlag, FetchState) {
    match place {
        0 => (TransferFlag::Start, FetchState::More),
        299 => (TransferFlag::StartAndEnd, FetchState::Done(0)),
        _ => (TransferFlag::Middle, FetchState::More),
    }
}

/// Takes a record of 300 bytes byte by byte.
fn take_bytes(rt: &impl Abort, fetch: &mut Fetch, record: &[u8; 300]) {
    for (place, byte) in (0u32..).zip(record) {
        let change_number = if place < 8 { 0 } else { 0x1234 };
        expect_eq(rt, asked(fetch), Some((place, change_number)), place);
        let (flag, state) = at_byte(place);
        let one = part(rt, flag, place.saturating_add(1), &[*byte], None);
        is_taken(rt, fetch, &one, Ok(state));
    }
}

/// The requests after the eighth byte have the record's change number, and parts of one byte each are
/// taken to the last.
#[test]
fn a_changed_record_is_fetched_byte_by_byte(rt: HostRuntime) {
    let mut record = record();
    record[6..8].copy_from_slice(&[0x34, 0x12]);
    let mut fetch = Fetch::new(rt.alloc(), 1);
    take_bytes(&rt, &mut fetch, &record);
    expect_eq(&rt, fetch.record(), Some(record.as_slice()), "the record");
}

/// The record's first 239 bytes.
fn first_part(rt: &impl Abort) -> Answer {
    let record = record();
    let (before, _) = record.split_at(239);
    part(rt, TransferFlag::Start, 239, before, None)
}

/// A last part with a checksum that is not the record's ends a fetch.
fn takes_wrong_checksum(rt: &impl Abort, fetch: &mut Fetch) {
    let last = part(rt, TransferFlag::End, 0, &record()[239..], Some(0xf4));
    is_taken(rt, fetch, &first_part(rt), Ok(FetchState::More));
    for answer in [&last, &first_part(rt), &Answer::SetTid] {
        is_taken(rt, fetch, answer, Err(FetchFault::Crc));
    }
}

#[test]
fn a_wrong_checksum_ends_a_fetch(rt: HostRuntime) {
    let mut fetch = Fetch::new(rt.alloc(), 1);
    takes_wrong_checksum(&rt, &mut fetch);
    is_next(&rt, &fetch, None);
    expect_eq(&rt, fetch.record(), None, "the record");
}

/// The answer to GetTID that has no refusal.
fn other(rt: &impl Abort) -> Answer {
    answer(rt, &Command::GetTid, &[0x01, 0x00, 0x00, 0x02, 0x00, 0x01])
}

/// An answer to another command leaves a fetch as it was, and a refusal ends it.
#[test]
fn answers_that_a_fetch_refuses(rt: HostRuntime) {
    let mut fetch = Fetch::new(rt.alloc(), 1);
    is_taken(&rt, &mut fetch, &other(&rt), Err(FetchFault::Unexpected));
    is_next(&rt, &fetch, Some(&request(1, 0)));
    let refused = answer(&rt, &Command::GetTid, &[0x01, 0x00, 0x00, 0x02, 0x82]);
    let code = Code::new(0x82).expect(&rt, "a code");
    for answer in [&refused, &other(&rt)] {
        is_taken(&rt, &mut fetch, answer, Err(FetchFault::Refused(code)));
    }
}

#[test]
fn an_empty_part_ends_a_fetch(rt: HostRuntime) {
    let empty = part(&rt, TransferFlag::Start, 0, &[], None);
    let mut fetch = Fetch::new(rt.alloc(), 1);
    for answer in [&empty, &other(&rt)] {
        is_taken(&rt, &mut fetch, answer, Err(FetchFault::Count));
    }
}

/// The whole of record 1 belongs to a fetch of record 1, and to one of the first record, whichever it is.
#[test]
fn a_record_of_another_handle_is_refused(rt: HostRuntime) {
    let record = [1, 0, 0, 0, 1, 1, 0, 0, 0, 0];
    let whole = part(&rt, TransferFlag::StartAndEnd, 0, &record, None);
    for (handle, wanted) in [
        (2, Err(FetchFault::Handle)),
        (0, Ok(FetchState::Done(0))),
        (1, Ok(FetchState::Done(0))),
    ] {
        let mut fetch = Fetch::new(rt.alloc(), handle);
        is_taken(&rt, &mut fetch, &whole, wanted);
    }
}

/// How many bytes more there are after each refusal.
const STEP: usize = 16;

/// More refusals than a part of the example's record meets.
const MAX_REFUSALS: usize = 250;

/// Has a part taken with no memory at first and a little more after each refusal, which leaves the fetch as it was.
fn take_at_last(
    rt: &impl Abort,
    hoard: &mut Hoard,
    fetch: &mut Fetch,
    answer: &Answer,
    asked: &Command,
) -> Result<FetchState, FetchFault> {
    hoard.take_rest().expect(rt, "room for the hoard");
    let memory = Memory::from(AllocError);
    for refusals in 0..MAX_REFUSALS {
        is_next(rt, fetch, Some(asked));
        let taken = fetch.take(answer);
        if taken != Err(FetchFault::Memory(memory)) {
            expect_eq(rt, refusals > 0, true, asked);
            return taken;
        }
        hoard.give(STEP);
    }
    panic!(rt; "never taken")
}

/// Takes the record in two parts.
fn take_parts(rt: &impl Abort, hoard: &mut Hoard, fetch: &mut Fetch) {
    let state = take_at_last(rt, hoard, fetch, &first_part(rt), &request(1, 0));
    expect_eq(rt, state, Ok(FetchState::More), "the first part");
    let last = part(rt, TransferFlag::StartAndEnd, 0, &record()[239..], None);
    let state = take_at_last(rt, hoard, fetch, &last, &request(0, 239));
    expect_eq(rt, state, Ok(FetchState::Done(0)), "the last part");
}

#[test]
fn each_growth_of_a_fetch_is_refused_in_turn(rt: HostRuntime) {
    let mut fetch = Fetch::new(rt.alloc(), 1);
    let mut hoard = Hoard::take(rt.alloc(), 0).expect(&rt, "room for the hoard");
    take_parts(&rt, &mut hoard, &mut fetch);
    drop(hoard);
    expect_eq(&rt, fetch.record(), Some(record().as_slice()), "the record");
}
