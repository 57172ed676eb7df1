//! A line that gives these pieces, the clock beside it, what is asked on it, and what was written.

use mctp_control::AnyQuery;
use mctp_packet::{Eid, Keep};
use pldm_line::{AskFault, Asked, BeginFault, Ended, ListTicks, Port, ask, ask_control, begin};
use pldm_requester::{Pace, Timing};
use pldm_wire::Command;
use std::alloc::Global;
use std::io;
use std::io::{Error, ErrorKind, Read};
use std::process::Abort;

/// Gives these pieces, one at each read. An empty one is a read of 0 bytes; after the last one reads fail.
#[derive(Drop)]
pub struct Pieces<'a> {
    pub pieces: &'a [&'a [u8]],
    pub taken: usize,
}

impl Read for Pieces<'_> {
    fn read(&mut self, buf: &mut [u8]) -> io::Result<usize> {
        let Some(piece) = self.pieces.get(self.taken) else {
            return Err(Error::from(ErrorKind::BrokenPipe));
        };
        self.taken = self.taken.saturating_add(1);
        let count = piece.len().min(buf.len());
        buf[..count].copy_from_slice(&piece[..count]);
        Ok(count)
    }
}

/// A read that gives nothing.
pub const NOTHING: &[u8] = &[];

/// What is asked.
#[derive(Drop)]
pub enum AskedOf<'a> {
    /// The command GetTID.
    Command,
    /// A control query, in so many tries of 100 ms each.
    Query { query: &'a AnyQuery, tries: u8 },
}

/// What came of a line: how it ended, the message of the answer where one came, and what was written.
#[derive(Drop)]
pub struct Outcome {
    pub ended: Result<Ended, AskFault>,
    pub answer: Vec<u8>,
    pub written: Vec<u8>,
}

/// The endpoint that asks, and the device.
pub fn ends(rt: &impl Abort) -> (Eid, Eid) {
    (
        Eid::new(8).expect(rt, "an endpoint ID"),
        Eid::new(9).expect(rt, "an endpoint ID"),
    )
}

/// A keeping time of 1,000 ms, a timeout of 300 ms, and 3 tries.
fn timing(rt: &impl Abort) -> Timing {
    Timing {
        keep: Keep::new(1_000).expect(rt, "a keeping time"),
        timeout: 300,
        tries: 3,
    }
}

/// These pieces, after two reads that give nothing: twice the keeping time passes before anything is asked.
fn settled<'a>(rt: &impl Abort, alloc: Global, pieces: &[&'a [u8]]) -> Vec<&'a [u8]> {
    let mut all = Vec::new(alloc);
    all.push(NOTHING).expect(rt, "memory");
    all.push(NOTHING).expect(rt, "memory");
    all.extend_from_slice(pieces).expect(rt, "memory");
    all
}

/// These readings of the clock, after those of the two reads, 50 and 2050.
fn settled_clock(rt: &impl Abort, alloc: Global, readings: &[u64]) -> Vec<u64> {
    let mut all = Vec::new(alloc);
    all.push(50).expect(rt, "memory");
    all.push(2_050).expect(rt, "memory");
    all.extend_from_slice(readings).expect(rt, "memory");
    all
}

/// Begins a line of endpoint 8 with device 9 (keeping time 1,000 ms, timeout 300 ms, 3 tries), and asks this. The first
/// two reads give nothing, at the readings 50 and 2050.
pub fn run_line(
    rt: &impl Abort,
    alloc: Global,
    question: &AskedOf<'_>,
    pieces: &[&[u8]],
    readings: &[u64],
) -> Outcome {
    let all = settled(rt, alloc, pieces);
    let clock = settled_clock(rt, alloc, readings);
    let mut reader = Port::new(Pieces {
        pieces: &all,
        taken: 0,
    });
    let mut writer = Port::new(Vec::new(alloc));
    let (own, device) = ends(rt);
    let timing = timing(rt);
    let ticks = ListTicks { readings: &clock };
    let mut answer = Vec::new(alloc);
    let ended = match begin(
        alloc,
        own,
        device,
        timing,
        Pace::at_default(timing.keep),
        ticks,
        &mut reader,
        &mut writer,
    ) {
        Ok(mut line) => match question {
            AskedOf::Command => {
                match ask(&mut line, &Command::GetTid, &mut reader, &mut writer) {
                    Ok(Asked { number, ended }) => {
                        if let Some(message) = line.answer(number) {
                            answer.extend_from_slice(message).expect(rt, "memory");
                        }
                        Ok(ended)
                    }
                    Err(fault) => Err(fault),
                }
            }
            AskedOf::Query { query, tries } => {
                match ask_control(&mut line, query, 100, *tries, &mut reader, &mut writer) {
                    Ok(Some(message)) => {
                        answer.extend_from_slice(&message).expect(rt, "memory");
                        Ok(Ended::Answered)
                    }
                    Ok(None) => Ok(Ended::GaveUp),
                    Err(fault) => Err(fault),
                }
            }
        },
        Err(BeginFault::Line(fault)) => Err(fault),
        Err(BeginFault::Setting(_)) => panic!(rt; "the settings were refused"),
    };
    Outcome {
        ended,
        answer,
        written: writer.into_inner(),
    }
}

/// Checks how a question ended, with this answer, after this frame was written so often and nothing else.
pub fn expect_end(
    rt: &impl Abort,
    outcome: &Outcome,
    ended: Result<Ended, AskFault>,
    answer: &[u8],
    frame: &[u8],
    times: usize,
) {
    assert_eq!(rt; outcome.ended, ended);
    assert_eq!(rt; outcome.answer.as_slice(), answer);
    let mut rest = outcome.written.as_slice();
    for _ in 0..times {
        rest = rest.strip_prefix(frame).expect(rt, "the frame once more");
    }
    assert_eq!(rt; rest, NOTHING);
}
