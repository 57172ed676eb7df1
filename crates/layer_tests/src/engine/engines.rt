//! The three engines, and an input of each with all that it writes.

ghost use Rattle.std.specs.Prelude.{◌≡◌, false};
ghost use Rattle.mctpctl_input.specs.Ports.{has_failed};

use crate::engine::fakes::{PieceWriter, TEXT_ROOM};
use crate::example_device::input;
use mctpctl_engines::{EngineFault, LineKind, Port, answer_all, run_all, show_all};
use pldm_device::FileFault;
use std::alloc::{AllocError, Global};
use std::io::{Read, Write};
use std::process::Abort;

/// One of the engines.
#[derive(Clone, Copy, Debug)]
pub enum Engine {
    Answer,
    Run,
    Show,
}

/// How a run ends.
#[derive(Clone, Copy, Debug, PartialEq, Eq)]
pub enum End {
    Done,
    Device(FileFault),
    NoDivider,
    Line(u64, LineKind),
    Timing,
    TooLarge,
    Read,
    Write,
    Memory,
}

/// What a run gives: how it ends, and what it writes.
#[derive(Drop)]
pub struct Outcome {
    pub end: End,
    pub written: Vec<u8>,
}

/// How a run with this outcome ends.
fn end_of(outcome: Result<(), EngineFault>) -> End {
    match outcome {
        Ok(()) => End::Done,
        Err(EngineFault::Device(fault)) => End::Device(fault.fault()),
        Err(EngineFault::NoDivider) => End::NoDivider,
        Err(EngineFault::Line(line, kind)) => End::Line(line, kind),
        Err(EngineFault::Timing(..)) => End::Timing,
        Err(EngineFault::TooLarge) => End::TooLarge,
        Err(EngineFault::Read) => End::Read,
        Err(EngineFault::Write) => End::Write,
        Err(EngineFault::Memory(_)) => End::Memory,
    }
}

impl Engine {
    /// Runs it over a reader and a writer that have not failed.
    pub fn run<R: Read, W: Write>(
        self,
        alloc: Global,
        reader: &mut Port<R>,
        writer: &mut Port<W>,
    ) -> End
        requires reads { has_failed reader.old ≡ false }
        requires writes { has_failed writer.old ≡ false }
    {
        end_of(match self {
            Engine::Answer => answer_all(alloc, reader, writer),
            Engine::Run => run_all(alloc, reader, writer),
            Engine::Show => show_all(alloc, None, reader, writer),
        })
    }

    /// Runs it over a reader, and a writer that has room for all.
    pub fn run_over<R: Read + Drop>(self, alloc: Global, reader: R) -> Result<Outcome, AllocError> {
        let mut writer = Port::new(Vec::with_capacity(alloc, TEXT_ROOM)?);
        let mut reader = Port::new(reader);
        let end = self.run(alloc, &mut reader, &mut writer);
        Ok(Outcome {
            end,
            written: writer.into_inner(),
        })
    }

    /// An input of these lines, after the example device where the engine reads one.
    pub fn input(self, alloc: Global, lines: &str) -> Result<String, AllocError> {
        match self {
            Engine::Show => String::from_str(alloc, lines),
            _ => input(alloc, lines),
        }
    }

    /// Whether it writes nothing before the whole input has come.
    pub fn waits(self) -> bool {
        matches!(self, Engine::Run)
    }
}

/// Checks how an engine ends over a reader, and that a writer of one byte at a call has this text, flushed once.
pub fn expect_flushed<R: Read + Drop>(
    rt: &impl Abort,
    alloc: Global,
    engine: Engine,
    reader: R,
    end: End,
    text: &str,
) {
    let mut reader = Port::new(reader);
    let mut writer = Port::new(PieceWriter::new(Vec::new(alloc), 1));
    assert_eq!(rt; engine.run(alloc, &mut reader, &mut writer), end);
    let PieceWriter { taken, flushes, .. } = writer.into_inner();
    assert_eq!(rt; taken.as_slice(), text.as_bytes());
    assert_eq!(rt; flushes, 1);
}

/// A request whose first answer is lost, and a retry.
pub const RETRY: &str = "requester 8 timeout 200 tries 3
at 0 open 8 setnum 1 uint8 40
at 0 req 0
at 200 tick 8
at 200 req 0
at 210 rep 0 0
";

pub const RETRY_REPORT: &str = "0 opened 0
0 fresh changed
200 again 0
200 copy
210 answered
request 0 from 8 answered 0100023100
order 0
tid 1
sensor 1 40
numeric 1 40
state 2 1 1
timely: yes
";

/// A request for the terminus ID, and its answer.
pub const QUESTION: &str = "0 010908c801800002\n1 010809c0010000020001\n";

pub const QUESTION_SHOWN: &str = "0 8>9 tag 0 to 1 som 1 eom 1 seq 0 len 4 whole
  request 0 GetTID - ok
1 9>8 tag 0 to 0 som 1 eom 1 seq 0 len 6 whole
  response 0 GetTID 00 01
";

/// An engine, the lines of an input, and all that it writes.
pub const RUNS: [(Engine, &str, &str); 3] = [
    (
        Engine::Answer,
        "0 010908c801800002\n",
        "010809c0010000020001\n",
    ),
    (Engine::Run, RETRY, RETRY_REPORT),
    (Engine::Show, QUESTION, QUESTION_SHOWN),
];

/// Whether this is a front of a text that ends with a whole line, or nothing.
pub fn is_front(written: &[u8], text: &str) -> bool {
    text.as_bytes().starts_with(written) && (written.is_empty() || written.ends_with(b"\n"))
}
