//! A run over lines: the one place where pieces of input are cut into lines, and the front of a line is kept.

ghost use Rattle.std.specs.Prelude.{◌≡◌, ◌≤◌, ◌<◌, ◌+◌, ◌++◌, ◌∷◌, ℕ, Bool, true, List, [], IfErr, OnOk, length};
ghost use Rattle.line_words.specs.TextLines.{HasNoFeed};
ghost use Rattle.mctpctl_engines.specs.LinePieces.{FrontStops, TakesLine, nothing_where_cut, run_gives};
ghost use Rattle.mctpctl_engines.specs.LineRuns.{Written};
ghost use Rattle.mctpctl_engines.specs.Pieces.{FinishesTo, Takes};
ghost use Rattle.mctpctl_input.specs.Ports.{inner_of};
ghost use Rattle.mctpctl_engines.specs.PortFaults.{IsReady, ReportsNoPort, ReportsOnlyWriter};

use crate::piece_loop::Run;
use line_words::split_line;
use mctpctl_input::{EngineFault, MAX_INPUT, Port};
use std::alloc::Global;
use std::io::Write;

/// What takes the lines of an input one after another, each of them whole. `writes` says what it writes of the lines
/// to come, which are all or end where the input is cut off, `counted` how many lines have ended, and `may_keep`
/// whether a run may keep so many bytes of a line that has not ended.
///
/// The law `none_where_cut`: of a line in which the input is cut off nothing is written.
pub trait LineTaker {
    // what is written of the lines to come, if the input is cut off in the last of them or they are all
    ghost writes: { Self → Bool → List (List ℕ) → Written };

    // how many lines have ended
    ghost counted: { Self → ℕ };

    // whether so many bytes of a line that has not ended may be kept
    ghost may_keep: { Self → ℕ → Type 0 };

    /// Takes the next line, given without the LF that ends it, and adds to `out` what it gives.
    fn take_line(
        &mut self,
        alloc: Global,
        line: &[u8],
        out: &mut Vec<u8>,
    ) -> Result<(), EngineFault>
        requires { counted self.old < MAX_INPUT }
        ensures meets { TakesLine (writes self.old) line.now (writes self.new) out.old.items out.new.items result }
        ensures counted { counted self.new ≤ counted self.old + 1 }
        ensures ports { ReportsNoPort result };

    /// Fails where the next line begins with `front` and that is too long, however the line ends.
    fn check_front(&self, front: &[u8]) -> Result<(), EngineFault>
        requires { counted self.now ≤ MAX_INPUT }
        ensures ok { OnOk result (may_keep self.now (length front.now)) }
        ensures err { IfErr result (λ fault. FrontStops (writes self.now) front.now fault) }
        ensures ports { ReportsNoPort result };

    /// Takes the last line, which the end of the input ends, and writes what is left to give before its fault is
    /// reported. `out` is room for a text.
    fn finish<W: Write>(
        &mut self,
        alloc: Global,
        is_cut: bool,
        last: &[u8],
        out: &mut Vec<u8>,
        writer: &mut Port<W>,
    ) -> Result<(), EngineFault>
        requires size { counted self.old ≤ MAX_INPUT }
        requires ready { IsReady out.old.items writer.old }
        ensures meets { FinishesTo (writes self.old is_cut (last.now ∷ [])) (W.contents (inner_of writer.old))
            (W.contents (inner_of writer.new)) result }
        ensures ports { ReportsOnlyWriter result writer.new };

    ghost none_where_cut: { (taker : Self) (line : List ℕ) → (writes taker true (line ∷ [])).text ≡ [] };
}

/// A run over lines, which keeps what has come of a line that has not ended.
#[derive(Drop)]
pub struct LineRun<T> {
    /// What takes the lines.
    taker: T,
    /// What has come of the next one.
    kept: Vec<u8>,
}

impl<T: LineTaker> LineRun<T> {
    /// A run of which no line has come.
    pub fn new(alloc: Global, taker: T) -> LineRun<T>
        ensures taker { result.taker ≡ taker }
        ensures kept { result.kept.items ≡ [] }
    {
        LineRun {
            taker,
            kept: Vec::new(alloc),
        }
    }

    /// Hands over the line that ends here, with what was kept of it. Where nothing was, nothing is copied.
    // Inlined, as what takes a line: it runs for each line.
    #[inline(always)]
    fn end_line(&mut self, alloc: Global, line: &[u8], out: &mut Vec<u8>) -> Result<(), EngineFault>
        requires feed { HasNoFeed line.now }
        requires counted { T.counted self.old.taker < MAX_INPUT }
        ensures meets { Takes (run_gives T.writes self.old) (line.now ++ 10 ∷ []) (run_gives T.writes self.new)
            out.old.items out.new.items result }
        ensures counted { T.counted self.new.taker ≤ T.counted self.old.taker + 1 }
        ensures ports { ReportsNoPort result }
    {
        if self.kept.is_empty() {
            return self.taker.take_line(alloc, line, out);
        }
        self.end_kept_line(alloc, line, out)
    }

    /// As [`LineRun::end_line`], where something was kept of the line.
    // Not inlined: at most one line of a piece is such a line.
    #[inline(never)]
    fn end_kept_line(
        &mut self,
        alloc: Global,
        line: &[u8],
        out: &mut Vec<u8>,
    ) -> Result<(), EngineFault>
        requires feed { HasNoFeed line.now }
        requires counted { T.counted self.old.taker < MAX_INPUT }
        ensures meets { Takes (run_gives T.writes self.old) (line.now ++ 10 ∷ []) (run_gives T.writes self.new)
            out.old.items out.new.items result }
        ensures counted { T.counted self.new.taker ≤ T.counted self.old.taker + 1 }
        ensures ports { ReportsNoPort result }
    {
        if let Err(refused) = self.kept.extend_from_slice(line) {
            return Err(EngineFault::Memory(refused.into()));
        }
        let result = self.taker.take_line(alloc, &self.kept, out);
        self.kept.clear();
        result
    }

    /// Keeps the front of a line.
    fn keep(&mut self, front: &[u8]) -> Result<(), EngineFault>
        requires feed { HasNoFeed front.now }
        requires counted { T.counted self.old.taker ≤ MAX_INPUT }
        ensures meets { Takes (run_gives T.writes self.old) front.now (run_gives T.writes self.new) [] [] result }
        ensures counted { T.counted self.new.taker ≡ T.counted self.old.taker }
        ensures bounded { OnOk result (T.may_keep self.new.taker (length self.new.kept.items)) }
        ensures ports { ReportsNoPort result }
    {
        self.kept.extend_from_slice(front)?;
        self.taker.check_front(&self.kept)
    }
}

impl<T: LineTaker> Run for LineRun<T> {
    ghost gives = { run_gives T.writes };

    ghost counted = { λ run. T.counted run.taker };

    fn take(&mut self, alloc: Global, piece: &[u8], out: &mut Vec<u8>) -> Result<(), EngineFault>
        requires { T.counted self.old.taker + length piece.now ≤ MAX_INPUT }
        ensures meets { Takes (run_gives T.writes self.old) piece.now (run_gives T.writes self.new) out.old.items
            out.new.items result }
        ensures counted { T.counted self.new.taker ≤ T.counted self.old.taker + length piece.now }
        ensures bounded { OnOk result (T.may_keep self.new.taker (length self.new.kept.items)) }
        ensures ports { ReportsNoPort result }
    {
        let mut rest = piece;
        while let Some((line, after)) = split_line(rest) {
            match self.end_line(alloc, line, out) {
                Ok(()) => {}
                Err(fault) => return Err(fault),
            }
            rest = after;
        }
        self.keep(rest)
    }

    fn finish<W: Write>(
        &mut self,
        alloc: Global,
        is_cut: bool,
        out: &mut Vec<u8>,
        writer: &mut Port<W>,
    ) -> Result<(), EngineFault> {
        self.taker.finish(alloc, is_cut, &self.kept, out, writer)
    }

    ghost none_where_cut = { nothing_where_cut T.writes T.none_where_cut };
}
