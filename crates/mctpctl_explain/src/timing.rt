//! What is wrong with the timing of a requester.

use crate::words::words_of;
use line_words::{read_decimal, split_line};
use mctp_packet::{Eid, Memory};
use pldm_requester::{MAX_TRIES, TimingFault};
use schedule_text::MAX_TIMEOUT;
use std::alloc::Global;

/// What the line of a requester says.
#[derive(Clone, Copy, Debug)]
struct Numbers {
    /// The line's number, counted from 1.
    line: u64,
    timeout: u64,
    tries: u64,
}

/// Says what is wrong with the timing of the requester at this endpoint, by its line among these and the
/// keeping time in milliseconds, where it is known. Lines are numbered on from `lines_before`.
pub(crate) fn explain_timing(
    alloc: Global,
    lines: &[u8],
    lines_before: u64,
    keep: u32,
    eid: Eid,
    fault: TimingFault,
) -> Result<String, Memory> {
    let Some(numbers) = numbers_of(alloc, lines, eid)? else {
        return Ok(String::new(alloc));
    };
    let Numbers {
        line,
        timeout,
        tries,
    } = numbers;
    let line = line.saturating_add(lines_before);
    let eid = eid.get();
    let text = match fault {
        TimingFault::Timeout => {
            format!(in alloc; "the timeout is 0: expected 1 to {MAX_TIMEOUT} milliseconds")?
        }
        TimingFault::Tries => format!(in alloc;
            "the tries are {tries}: expected 1 to {MAX_TRIES}"
        )?,
        TimingFault::TooLate => {
            let life = timeout.saturating_mul(tries);
            format!(in alloc;
                "{tries} tries of {timeout} ms take {life} ms: at most keep_ms, {keep}, is allowed"
            )?
        }
        TimingFault::SameEid => {
            format!(in alloc; "{eid} is the eid of the device: expected another from 8 to 254")?
        }
    };
    Ok(format!(in alloc; "input line {line}: {text}")?)
}

/// The numbers of the requester at this endpoint.
fn numbers_of(alloc: Global, lines: &[u8], eid: Eid) -> Result<Option<Numbers>, Memory> {
    let mut number = 1u64;
    let mut rest = lines;
    while let Some((line, after)) = split_line(rest) {
        if let Some(numbers) = numbers_in(alloc, line, number, eid)? {
            return Ok(Some(numbers));
        }
        number = number.saturating_add(1);
        rest = after;
    }
    numbers_in(alloc, rest, number, eid)
}

fn numbers_in(
    alloc: Global,
    line: &[u8],
    number: u64,
    eid: Eid,
) -> Result<Option<Numbers>, Memory> {
    let words = words_of(alloc, line)?;
    let [b"requester", own, _, timeout, _, tries] = words.as_slice() else {
        return Ok(None);
    };
    match (
        read_decimal(own),
        read_decimal(timeout),
        read_decimal(tries),
    ) {
        (Some(own), Some(timeout), Some(tries)) if own == u64::from(eid.get()) => Ok(Some(
            Numbers {
                line: number,
                timeout,
                tries,
            },
        )),
        _ => Ok(None),
    }
}
