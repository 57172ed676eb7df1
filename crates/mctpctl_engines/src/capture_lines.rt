//! The lines of a capture, counted and answered one after another.

ghost use Rattle.std.specs.Prelude.{◌≡◌, ◌≤◌, ◌+◌, ℕ, List, [], ◌∷◌, Result, refl};
ghost use Rattle.mctpctl_engines.specs.LineTasks.{AddsLine, FitsCapture, RefusesLong, task_writes};
ghost use Rattle.mctpctl_engines.specs.Pieces.{Finishes};
ghost use Rattle.mctpctl_input.specs.declared.faults.LineKind.{LineKind};
ghost use Rattle.mctpctl_engines.specs.PortFaults.{ReportsNoPort};

use crate::line_run::LineTaker;
use mctp_packet::Body;
use mctpctl_input::{EngineFault, HexDigits, LineKind, MAX_CAPTURE_LINE, MAX_INPUT, Port};
use mctpctl_texts::HexPairs;
use std::alloc::Global;
use std::io::Write;

/// Room for what comes of one line, which is used again for the next, and what reads and writes hex.
#[derive(Drop)]
pub struct LineRoom {
    /// What reads the digits of its packet.
    pub digits: HexDigits,
    /// What writes the digits of an answer.
    pub pairs: HexPairs,
    /// For the bytes of its packet.
    pub packet: Vec<u8>,
    /// For a message that this packet completes, or that answers it.
    pub message: Body,
    /// For its text.
    pub text: Vec<u8>,
}

impl LineRoom {
    /// Room that holds nothing yet.
    pub fn new(alloc: Global) -> LineRoom
        ensures packet { result.packet.items ≡ [] }
        ensures message { result.message.items ≡ [] }
        ensures text { result.text.items ≡ [] }
    {
        LineRoom {
            digits: HexDigits::new(),
            pairs: HexPairs::new(),
            packet: Vec::new(alloc),
            message: Body::new(),
            text: Vec::new(alloc),
        }
    }
}

/// What answers one line after another: `step` says what a line gives in a state, and the state after
/// it.
///
/// The law `refuses_long`: a line of more than `MAX_CAPTURE_LINE` bytes is refused, whatever it says.
pub trait LineTask {
    ghost State: { Type 0 };

    // the state of a value
    ghost state_of: { Self → State };

    // what a line gives in a state, and the state after it
    ghost step: { State → List ℕ → Result (List ℕ × State) LineKind };

    /// Answers the line of this number, and adds its text to `out`. What `room` holds is written over.
    fn answer(
        &mut self,
        alloc: Global,
        number: u64,
        line: &[u8],
        room: &mut LineRoom,
        out: &mut Vec<u8>,
    ) -> Result<(), EngineFault>
        ensures meets { AddsLine number (step (state_of self.old) line.now) (state_of self.new) out.old.items
            out.new.items result };

    ghost refuses_long: { RefusesLong step };
}

/// The lines of a capture that have come, and what answers them.
#[derive(Drop)]
pub struct CaptureLines<T> {
    /// What answers the lines.
    task: T,
    /// How many lines have ended.
    ended: u64,
    /// Room for what comes of a line.
    room: LineRoom,
}

impl<T: LineTask> CaptureLines<T> {
    /// No line.
    pub fn new(alloc: Global, task: T) -> CaptureLines<T>
        ensures task { result.task ≡ task }
        ensures ended { result.ended ≡ 0 }
    {
        CaptureLines {
            task,
            ended: 0,
            room: LineRoom::new(alloc),
        }
    }

    /// Takes the last line, and adds to `out` what it gives.
    fn end_input(
        &mut self,
        alloc: Global,
        is_cut: bool,
        last: &[u8],
        out: &mut Vec<u8>,
    ) -> Result<(), EngineFault>
        requires { self.old.ended ≤ MAX_INPUT }
        ensures meets { Finishes (task_writes T.step T.state_of self.old is_cut (last.now ∷ [])) out.old.items
            out.new.items result }
        ensures ports { ReportsNoPort result }
    {
        let number = self.ended + 1;
        if is_cut {
            return Err(if last.len() > MAX_CAPTURE_LINE {
                EngineFault::Line(number, LineKind::LongLine)
            } else {
                EngineFault::TooLarge
            });
        }
        self.task.answer(alloc, number, last, &mut self.room, out)
    }
}

impl<T: LineTask> LineTaker for CaptureLines<T> {
    ghost writes = { task_writes T.step T.state_of };

    ghost counted = { λ lines. lines.ended };

    ghost may_keep = { FitsCapture };

    #[inline(always)]
    fn take_line(
        &mut self,
        alloc: Global,
        line: &[u8],
        out: &mut Vec<u8>,
    ) -> Result<(), EngineFault> {
        let number = self.ended + 1;
        self.ended = number;
        self.task.answer(alloc, number, line, &mut self.room, out)
    }

    fn check_front(&self, front: &[u8]) -> Result<(), EngineFault> {
        if front.len() > MAX_CAPTURE_LINE {
            return Err(EngineFault::Line(self.ended + 1, LineKind::LongLine));
        }
        Ok(())
    }

    fn finish<W: Write>(
        &mut self,
        alloc: Global,
        is_cut: bool,
        last: &[u8],
        out: &mut Vec<u8>,
        writer: &mut Port<W>,
    ) -> Result<(), EngineFault> {
        let result = self.end_input(alloc, is_cut, last, out);
        if writer.write_all(out).is_err() {
            return Err(EngineFault::Write);
        }
        result
    }

    ghost none_where_cut = { λ lines line. refl };
}
