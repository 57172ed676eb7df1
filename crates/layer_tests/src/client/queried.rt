//! One control query: when its frame goes out, and which answer is believed.

use crate::client::lines::{AskedOf, NOTHING, Outcome, ends, expect_end, run_line};
use mctp_control::{AnyQuery, Command, Query};
use mctp_packet::Tag;
use mctp_serial::frame;
use pldm_line::{AskFault, Ended};
use std::alloc::Global;
use std::process::Abort;

/// The frame by which endpoint 8 asks device 9 for its endpoint ID, on tag 2 with instance ID 5. The check sequences
/// were computed by another program, which also gives those in the help of `serve`.
const QUERY: &[u8] = &[
    0x7E, 0x01, 0x07, 0x01, 0x09, 0x08, 0xCA, 0x00, 0x85, 0x02, 0x49, 0x7C, 0x7E,
];

/// The frame of the answer: a simple endpoint with the dynamic endpoint ID 9.
const ANSWER: &[u8] = &[
    0x7E, 0x01, 0x0B, 0x01, 0x08, 0x09, 0xC2, 0x00, 0x05, 0x02, 0x00, 0x09, 0x00, 0x00, 0x8D, 0x59,
    0x7E,
];

/// The message in it.
const MESSAGE: &[u8] = &[0x00, 0x05, 0x02, 0x00, 0x09, 0x00, 0x00];

/// Asks for the endpoint ID of device 9 over a line of these pieces, in so many tries.
fn run(rt: &impl Abort, alloc: Global, tries: u8, pieces: &[&[u8]], readings: &[u64]) -> Outcome {
    let (own, device) = ends(rt);
    let tag = Tag::new(2).expect(rt, "a tag");
    let query = AnyQuery::ToDevice(Query::new(own, device, tag, 5, Command::GetEndpointId));
    let question = AskedOf::Query {
        query: &query,
        tries,
    };
    run_line(rt, alloc, &question, pieces, readings)
}

#[test]
fn an_answer_to_a_query(rt: HostRuntime) {
    let got = run(&rt, rt.alloc(), 2, &[ANSWER], &[2_060]);
    expect_end(&rt, &got, Ok(Ended::Answered), MESSAGE, QUERY, 1);
}

#[test]
fn the_first_answer_in_pieces_after_a_retry(rt: HostRuntime) {
    // with the rest of the answer comes another one: the command is refused
    let refused = frame(&[0x01, 0x08, 0x09, 0xC2, 0x00, 0x05, 0x02, 0x01]).expect(&rt, "a frame");
    let mut half = Vec::new(rt.alloc());
    half.extend_from_slice(&ANSWER[..7]).expect(&rt, "memory");
    let mut rest = Vec::new(rt.alloc());
    rest.extend_from_slice(&ANSWER[7..]).expect(&rt, "memory");
    rest.extend_from_slice(&refused).expect(&rt, "memory");
    let got = run(
        &rt,
        rt.alloc(),
        2,
        &[NOTHING, NOTHING, &half, &rest],
        &[2_149, 2_150, 2_200, 2_249],
    );
    expect_end(&rt, &got, Ok(Ended::Answered), MESSAGE, QUERY, 2);
    let got = run(&rt, rt.alloc(), 2, &[&refused], &[2_060]);
    expect_end(
        &rt,
        &got,
        Ok(Ended::Answered),
        &[0x00, 0x05, 0x02, 0x01],
        QUERY,
        1,
    );
}

#[test]
fn a_query_without_an_answer(rt: HostRuntime) {
    let readings = [2_149, 2_150, 2_249, 2_250];
    let got = run(&rt, rt.alloc(), 2, &[NOTHING; 4], &readings);
    expect_end(&rt, &got, Ok(Ended::GaveUp), &[], QUERY, 2);
    let got = run(&rt, rt.alloc(), 0, &[NOTHING; 2], &readings);
    expect_end(&rt, &got, Ok(Ended::GaveUp), &[], QUERY, 1);
}

#[test]
fn answers_to_other_queries(rt: HostRuntime) {
    // from another endpoint, to another one, on a tag of the device, on tag 1, the first of several packets, with
    // instance ID 4, of another command, and a request
    let others: [[u8; 11]; 8] = [
        [1, 8, 10, 0xC2, 0, 0x05, 2, 0, 9, 0, 0],
        [1, 11, 9, 0xC2, 0, 0x05, 2, 0, 9, 0, 0],
        [1, 8, 9, 0xCA, 0, 0x05, 2, 0, 9, 0, 0],
        [1, 8, 9, 0xC1, 0, 0x05, 2, 0, 9, 0, 0],
        [1, 8, 9, 0x82, 0, 0x05, 2, 0, 9, 0, 0],
        [1, 8, 9, 0xC2, 0, 0x04, 2, 0, 9, 0, 0],
        [1, 8, 9, 0xC2, 0, 0x05, 3, 0, 9, 0, 0],
        [1, 8, 9, 0xC2, 0, 0x85, 2, 0, 9, 0, 0],
    ];
    let mut bytes = Vec::new(rt.alloc());
    for packet in &others {
        let whole = frame(packet).expect(&rt, "a frame");
        bytes.extend_from_slice(&whole).expect(&rt, "memory");
    }
    let got = run(&rt, rt.alloc(), 1, &[&bytes, ANSWER], &[2_060, 2_070]);
    expect_end(&rt, &got, Ok(Ended::Answered), MESSAGE, QUERY, 1);
    let got = run(&rt, rt.alloc(), 1, &[&bytes, NOTHING], &[2_060, 2_150]);
    expect_end(&rt, &got, Ok(Ended::GaveUp), &[], QUERY, 1);
}

#[test]
fn a_query_on_a_line_that_fails(rt: HostRuntime) {
    let got = run(&rt, rt.alloc(), 2, &[NOTHING], &[2_150]);
    expect_end(&rt, &got, Err(AskFault::Read), &[], QUERY, 2);
    let got = run(&rt, rt.alloc(), 2, &[ANSWER], &[]);
    expect_end(&rt, &got, Err(AskFault::Clock), &[], QUERY, 1);
    let readings = [2_051, 2_051, 2_052, 2_052, 2_053, 2_053, 2_054, 2_054];
    let got = run(&rt, rt.alloc(), 2, &[NOTHING; 8], &readings);
    expect_end(&rt, &got, Err(AskFault::LineEnded), &[], QUERY, 1);
}
