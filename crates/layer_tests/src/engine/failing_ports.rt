//! Readers and writers that fail at each of their calls in turn, and such as move one byte at a call.

use crate::engine::engines::{End, Engine, RUNS, is_front};
use crate::engine::fakes::{FailsAt, PieceReader, PieceWriter, TEXT_ROOM};
use mctpctl_engines::Port;
use std::alloc::{AllocError, Global};
use std::process::Abort;
use std::test::Fail;

/// How the ports of a run move bytes: so many at a call, and so many calls before one fails.
#[derive(Clone, Copy, Debug)]
struct Moves {
    read_piece: usize,
    reads_left: usize,
    write_piece: usize,
    writes_left: usize,
    /// Whether the calls after the failed one succeed again.
    recovers: bool,
}

/// All at one call, and none fails.
const WHOLE: Moves = Moves {
    read_piece: usize::MAX,
    reads_left: usize::MAX,
    write_piece: usize::MAX,
    writes_left: usize::MAX,
    recovers: false,
};

/// How a run ended, how often its ports were called, and what was written.
#[derive(Drop)]
struct Moved {
    end: End,
    reads: usize,
    writes: usize,
    flushes: usize,
    taken: Vec<u8>,
}

/// Runs an engine over ports that move bytes so. A port has failed where the run's end says so, and only there.
fn run_moving(
    rt: &impl Abort,
    alloc: Global,
    engine: Engine,
    input: &str,
    moves: Moves,
) -> Result<Moved, AllocError> {
    let inner = PieceWriter::new(Vec::with_capacity(alloc, TEXT_ROOM)?, moves.write_piece);
    let mut writer = Port::new(FailsAt::new(inner, moves.writes_left, moves.recovers));
    let inner = PieceReader {
        bytes: input.as_bytes(),
        piece: moves.read_piece,
    };
    let mut reader = Port::new(FailsAt::new(inner, moves.reads_left, moves.recovers));
    let end = engine.run(alloc, &mut reader, &mut writer);
    let failed = (reader.failed(), writer.failed());
    let expected = (end == End::Read, end == End::Write);
    assert_eq!(rt; failed, expected, "{engine:?} {moves:?}");
    let FailsAt { inner, calls, .. } = writer.into_inner();
    Ok(Moved {
        end,
        reads: reader.into_inner().calls,
        writes: calls,
        flushes: inner.flushes,
        taken: inner.taken,
    })
}

/// How many bytes a reader that fails gives at a call.
const PIECE: usize = 7;

/// Checks that whole lines were written before a failed read, all of them where the last call failed, and
/// nothing where the engine waits for all input.
fn expect_front(
    rt: &impl Abort,
    engine: Engine,
    calls: usize,
    calls_left: usize,
    written: &[u8],
    text: &str,
) {
    let is_held_back = engine.waits() && calls_left < calls;
    assert!(rt; is_front(written, text), "{engine:?} at {calls_left}");
    let has_all = calls_left.saturating_add(1) >= calls && !is_held_back;
    assert!(rt; !has_all || written.len() == text.len());
    assert!(rt; !is_held_back || written.is_empty());
}

/// A reader fails once, or from a call on, at each call in turn, the last of which would report the end of
/// input. It is not called again.
fn fail_each_read(
    rt: &impl Abort,
    alloc: Global,
    engine: Engine,
    input: &str,
    text: &str,
) -> Result<(), AllocError> {
    let calls = input.len().div_ceil(PIECE).saturating_add(1);
    for at in 0..calls.saturating_mul(2).saturating_add(2) {
        let calls_left = at / 2;
        let moves = Moves {
            read_piece: PIECE,
            reads_left: calls_left,
            recovers: at % 2 == 0,
            ..WHOLE
        };
        let moved = run_moving(rt, alloc, engine, input, moves)?;
        let end = if calls_left < calls {
            End::Read
        } else {
            End::Done
        };
        let reads = calls.min(calls_left.saturating_add(1));
        assert_eq!(rt;
            (moved.end, moved.reads),
            (end, reads),
            "{engine:?} {moves:?}"
        );
        expect_front(rt, engine, calls, calls_left, &moved.taken, text);
    }
    Ok(())
}

#[test]
fn a_reader_that_fails(rt: HostRuntime) -> Result<(), Fail> {
    for (engine, lines, text) in RUNS {
        let input = engine.input(rt.alloc(), lines)?;
        fail_each_read(&rt, rt.alloc(), engine, &input, text)?;
    }
    Ok(())
}

/// A writer of one byte at a call fails once, or from a call on, at each call in turn, the last of which
/// is the flush. It is not called again, and took what comes before.
fn fail_each_write(
    rt: &impl Abort,
    alloc: Global,
    engine: Engine,
    input: &str,
    text: &str,
) -> Result<(), AllocError> {
    let calls = text.len().saturating_add(1);
    for at in 0..calls.saturating_mul(2).saturating_add(2) {
        let calls_left = at / 2;
        let moves = Moves {
            write_piece: 1,
            writes_left: calls_left,
            recovers: at % 2 == 0,
            ..WHOLE
        };
        let moved = run_moving(rt, alloc, engine, input, moves)?;
        let end = if calls_left < calls {
            End::Write
        } else {
            End::Done
        };
        let writes = calls.min(calls_left.saturating_add(1));
        assert_eq!(rt;
            (moved.end, moved.writes),
            (end, writes),
            "{engine:?} {moves:?}"
        );
        let taken = moved.taken.as_slice();
        assert_eq!(rt; taken.len(), text.len().min(calls_left));
        assert!(rt; text.as_bytes().starts_with(taken));
    }
    Ok(())
}

#[test]
fn a_writer_that_fails(rt: HostRuntime) -> Result<(), Fail> {
    for (engine, lines, text) in RUNS {
        let input = engine.input(rt.alloc(), lines)?;
        fail_each_write(&rt, rt.alloc(), engine, &input, text)?;
    }
    Ok(())
}

/// Reads and writes are of one byte, and what was written is flushed once.
#[test]
fn one_byte_at_a_call(rt: HostRuntime) -> Result<(), Fail> {
    let moves = Moves {
        read_piece: 1,
        write_piece: 1,
        ..WHOLE
    };
    for (engine, lines, text) in RUNS {
        let input = engine.input(rt.alloc(), lines)?;
        let moved = run_moving(&rt, rt.alloc(), engine, &input, moves)?;
        assert_eq!(rt; moved.end, End::Done, "{engine:?}");
        assert_eq!(rt; moved.taken.as_slice(), text.as_bytes());
        assert_eq!(rt; moved.flushes, 1);
    }
    Ok(())
}
