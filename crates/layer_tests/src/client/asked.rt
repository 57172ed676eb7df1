//! One request: when its frames go out, and how it ends.

use crate::client::lines::{AskedOf, NOTHING, Outcome, expect_end, run_line};
use mctp_serial::frame;
use pldm_line::{AskFault, Ended};
use std::alloc::Global;
use std::process::Abort;

/// The frame by which endpoint 8 asks device 9 for its terminus ID, as the help of `serve` has it.
const QUESTION: &[u8] = &[
    0x7E, 0x01, 0x08, 0x01, 0x09, 0x08, 0xC8, 0x01, 0x80, 0x00, 0x02, 0x0C, 0xA6, 0x7E,
];

/// The frame of the answer, as it has it.
const ANSWER: &[u8] = &[
    0x7E, 0x01, 0x0A, 0x01, 0x08, 0x09, 0xC0, 0x01, 0x00, 0x00, 0x02, 0x00, 0x01, 0x13, 0x13, 0x7E,
];

/// The message in it.
const MESSAGE: &[u8] = &[0x01, 0x00, 0x00, 0x02, 0x00, 0x01];

/// Asks for the terminus ID over a line of these pieces.
fn run(rt: &impl Abort, alloc: Global, pieces: &[&[u8]], readings: &[u64]) -> Outcome {
    run_line(rt, alloc, &AskedOf::Command, pieces, readings)
}

#[test]
fn an_answer_at_once(rt: HostRuntime) {
    let got = run(&rt, rt.alloc(), &[ANSWER], &[2_060]);
    expect_end(&rt, &got, Ok(Ended::Answered), MESSAGE, QUESTION, 1);
}

#[test]
fn an_answer_in_two_pieces_after_a_retry(rt: HostRuntime) {
    let pieces = [NOTHING, NOTHING, NOTHING, &ANSWER[..7], &ANSWER[7..]];
    let got = run(
        &rt,
        rt.alloc(),
        &pieces,
        &[2_150, 2_250, 2_350, 2_400, 2_401],
    );
    expect_end(&rt, &got, Ok(Ended::Answered), MESSAGE, QUESTION, 2);
}

#[test]
fn no_answer_in_the_tries(rt: HostRuntime) {
    let got = run(
        &rt,
        rt.alloc(),
        &[NOTHING; 4],
        &[2_349, 2_350, 2_650, 2_950],
    );
    expect_end(&rt, &got, Ok(Ended::GaveUp), &[], QUESTION, 3);
}

#[test]
fn garbage_and_answers_to_others(rt: HostRuntime) {
    // its source is another endpoint, its instance ID is 1, its tag is 1, its command is SetTID
    let others: [[u8; 10]; 4] = [
        [0x01, 0x08, 0x0A, 0xC0, 0x01, 0x00, 0x00, 0x02, 0x00, 0x05],
        [0x01, 0x08, 0x09, 0xC0, 0x01, 0x01, 0x00, 0x02, 0x00, 0x05],
        [0x01, 0x08, 0x09, 0xC1, 0x01, 0x00, 0x00, 0x02, 0x00, 0x05],
        [0x01, 0x08, 0x09, 0xC0, 0x01, 0x00, 0x00, 0x01, 0x00, 0x05],
    ];
    let mut bytes = Vec::new(rt.alloc());
    bytes
        .extend_from_slice(b"\0garbage\x7e\x01")
        .expect(&rt, "memory");
    for packet in &others {
        let whole = frame(packet).expect(&rt, "a frame");
        bytes.extend_from_slice(&whole).expect(&rt, "memory");
    }
    let got = run(&rt, rt.alloc(), &[&bytes, ANSWER], &[2_060, 2_070]);
    expect_end(&rt, &got, Ok(Ended::Answered), MESSAGE, QUESTION, 1);
    let got = run(
        &rt,
        rt.alloc(),
        &[&bytes, NOTHING, &bytes, NOTHING],
        &[2_060, 2_350, 2_650, 2_950],
    );
    expect_end(&rt, &got, Ok(Ended::GaveUp), &[], QUESTION, 3);
}

#[test]
fn a_line_that_ends(rt: HostRuntime) {
    // eight reads of nothing took 4 ms; with one that took longer the line goes on
    let got = run(
        &rt,
        rt.alloc(),
        &[NOTHING; 8],
        &[2_051, 2_051, 2_052, 2_052, 2_053, 2_053, 2_054, 2_054],
    );
    expect_end(&rt, &got, Err(AskFault::LineEnded), &[], QUESTION, 1);
    let mut pieces = [NOTHING; 9];
    pieces[8] = ANSWER;
    let got = run(
        &rt,
        rt.alloc(),
        &pieces,
        &[
            2_051, 2_051, 2_052, 2_052, 2_053, 2_053, 2_054, 2_055, 2_056,
        ],
    );
    expect_end(&rt, &got, Ok(Ended::Answered), MESSAGE, QUESTION, 1);
}

#[test]
fn a_read_and_the_clock_that_fail(rt: HostRuntime) {
    let got = run(&rt, rt.alloc(), &[NOTHING], &[2_350]);
    expect_end(&rt, &got, Err(AskFault::Read), &[], QUESTION, 2);
    let got = run(&rt, rt.alloc(), &[ANSWER], &[]);
    expect_end(&rt, &got, Err(AskFault::Clock), &[], QUESTION, 1);
}
