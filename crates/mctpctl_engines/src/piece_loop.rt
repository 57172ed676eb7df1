//! The loop of a run: a piece of input is read, and what the run gives of it is written before more is asked for.

ghost use Rattle.std.specs.Prelude.{◌≡◌, ◌≤◌, ◌<◌, ◌+◌, ℕ, Bool, List, [], OnOk, IfOk, length, vec_len, true};
ghost use Rattle.mctpctl_engines.specs.LineRuns.{Written};
ghost use Rattle.mctpctl_engines.specs.Pieces.{Takes, TakesTo, FinishesTo};
ghost use Rattle.mctpctl_input.specs.Ports.{inner_of, BothWork, ReportsFailedPorts};
ghost use Rattle.mctpctl_engines.specs.WholeRuns.{RunsOver, WritesAll, WritesFront, WritesRead, whole_text};
ghost use Rattle.mctpctl_engines.specs.PortFaults.{IsReady, ReportsNoPort, ReportsOnlyWriter};

use mctpctl_input::{EngineFault, MAX_INPUT, Port};
use std::alloc::{AllocError, Global};
use std::io::{Read, Write};

/// How many bytes are asked for at once: as many as a pipe of Linux holds, so that one read empties it.
const PIECE: usize = 65_536;

/// A run over an input that comes in pieces. `gives` says what it writes of the bytes to come, which are
/// all or are cut off, and `counted` how many lines have ended.
///
/// The law `none_where_cut`: a run whose input is cut off at once writes nothing more.
pub trait Run {
    // what the run writes of the bytes to come, if they are cut off or all
    ghost gives: { Self → Bool → List ℕ → Written };

    // how many lines have ended
    ghost counted: { Self → ℕ };

    /// Takes a piece of the input, and adds to `out` what the lines that end in it give.
    fn take(&mut self, alloc: Global, piece: &[u8], out: &mut Vec<u8>) -> Result<(), EngineFault>
        requires { counted self.old + length piece.now ≤ MAX_INPUT }
        ensures meets { Takes (gives self.old) piece.now (gives self.new) out.old.items out.new.items result }
        ensures counted { counted self.new ≤ counted self.old + length piece.now }
        ensures ports { ReportsNoPort result };

    /// Takes the end of the input, and writes what is left to give before its fault is reported. `out` is
    /// room for a text.
    fn finish<W: Write>(
        &mut self,
        alloc: Global,
        is_cut: bool,
        out: &mut Vec<u8>,
        writer: &mut Port<W>,
    ) -> Result<(), EngineFault>
        requires size { counted self.old ≤ MAX_INPUT }
        requires ready { IsReady out.old.items writer.old }
        ensures meets { FinishesTo (gives self.old is_cut []) (W.contents (inner_of writer.old))
            (W.contents (inner_of writer.new)) result }
        ensures ports { ReportsOnlyWriter result writer.new };

    ghost none_where_cut: { (run : Self) → (gives run true []).text ≡ [] };
}

/// Where a piece is read to.
fn room_for_a_piece(alloc: Global) -> Result<Vec<u8>, AllocError>
    ensures { IfOk result (λ piece. 0 < vec_len piece) }
{
    vec![in alloc; 0u8; PIECE]
}

/// Writes what a piece gave, before its fault is reported.
fn take_piece<T: Run, W: Write>(
    alloc: Global,
    run: &mut T,
    piece: &[u8],
    out: &mut Vec<u8>,
    writer: &mut Port<W>,
) -> Result<(), EngineFault>
    requires ready { IsReady out.old.items writer.old }
    requires size { T.counted run.old + length piece.now ≤ MAX_INPUT }
    ensures meets { TakesTo (T.gives run.old) piece.now (T.gives run.new) (W.contents (inner_of writer.old))
        (W.contents (inner_of writer.new)) result }
    ensures counted { T.counted run.new ≤ T.counted run.old + length piece.now }
    ensures empty { OnOk result (out.new.items ≡ []) }
    ensures ports { ReportsOnlyWriter result writer.new }
{
    let result = run.take(alloc, piece, out);
    if writer.write_all(out).is_err() {
        return Err(EngineFault::Write);
    }
    out.clear();
    result
}

/// Reads to the end of input, or past `MAX_INPUT` bytes of it, in pieces that `room` has room for, and
/// writes what each piece gives before the next one is asked for.
fn run_pieces<T: Run, R: Read, W: Write>(
    alloc: Global,
    run: &mut T,
    reader: &mut Port<R>,
    writer: &mut Port<W>,
    room: &mut [u8],
) -> Result<(), EngineFault>
    requires works { BothWork reader.old writer.old }
    requires fresh { T.counted run.old ≡ 0 }
    requires room { 0 < length room.old }
    ensures { RunsOver R.remaining W.contents (T.gives run.old) reader.old reader.new writer.old writer.new result }
{
    let mut out = Vec::new(alloc);
    let mut left = MAX_INPUT;
    loop {
        let Ok(count) = reader.read(room) else {
            return Err(EngineFault::Read);
        };
        if count == 0 {
            return run.finish(alloc, false, &mut out, writer);
        }
        let is_cut = count > left;
        let taken = count.min(left);
        match take_piece(alloc, run, &room[..taken], &mut out, writer) {
            Ok(()) => {}
            Err(fault) => return Err(fault),
        }
        if is_cut {
            return run.finish(alloc, true, &mut out, writer);
        }
        left -= taken;
    }
}

/// Runs over all that a reader gives.
fn run_input<T: Run, R: Read, W: Write>(
    alloc: Global,
    run: &mut T,
    reader: &mut Port<R>,
    writer: &mut Port<W>,
) -> Result<(), EngineFault>
    requires works { BothWork reader.old writer.old }
    requires fresh { T.counted run.old ≡ 0 }
    ensures { RunsOver R.remaining W.contents (T.gives run.old) reader.old reader.new writer.old writer.new result }
{
    let mut piece = room_for_a_piece(alloc)?;
    run_pieces(alloc, run, reader, writer, &mut piece)
}

/// Runs over all that a reader gives, and flushes what was written. Where a port has failed nothing is
/// flushed.
pub fn run_to_end<T: Run, R: Read, W: Write>(
    alloc: Global,
    run: &mut T,
    reader: &mut Port<R>,
    writer: &mut Port<W>,
) -> Result<(), EngineFault>
    requires works { BothWork reader.old writer.old }
    requires fresh { T.counted run.old ≡ 0 }
    ensures text { WritesAll R.remaining W.contents (whole_text (T.gives run.old)) reader.old writer.old writer.new
        result }
    ensures at_read { WritesRead R.remaining W.contents (T.gives run.old) reader.old reader.new writer.old writer.new
        result }
    ensures at_memory { WritesFront R.remaining W.contents (T.gives run.old) reader.old writer.old writer.new result }
    ensures ports { ReportsFailedPorts EngineFault.Read EngineFault.Write result reader.new writer.new }
{
    let result = run_input(alloc, run, reader, writer);
    if reader.failed() || writer.failed() {
        return result;
    }
    if writer.flush().is_err() {
        return Err(EngineFault::Write);
    }
    result
}
