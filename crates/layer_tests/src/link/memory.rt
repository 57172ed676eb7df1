//! Schedules are read and run with little memory at first, and with more after each refusal.

use crate::hoard::Hoard;
use crate::link::runs::{RETRY, Row, TAG_USED_AGAIN, example, expect_run};
use bumpalo::Bump;
use mctp_schedule::{LineFaultKind, RunFault, Schedule, run};
use std::alloc::{AllocError, Global};
use std::process::Abort;
use std::test::Fail;

/// How many bytes more a reading has after each refusal.
const READING_STEP: usize = 16;

/// More refusals than a reading meets.
const MAX_REFUSALS: usize = 4_000;

/// How many steps are read of a schedule, or nothing where memory is refused.
fn read_steps(rt: &impl Abort, alloc: Global, text: &str) -> Option<usize> {
    match Schedule::read(alloc, text.as_bytes()) {
        Ok(schedule) => Some(schedule.steps().len()),
        Err(fault) => {
            assert!(rt; matches!(fault.kind, LineFaultKind::Memory(_)), "{fault}");
            None
        }
    }
}

/// Reads a schedule with no memory at first, and anew with a little more after each refusal, until all of
/// its steps are read.
fn refuse_each_growth_of_a_read(
    rt: &impl Abort,
    alloc: Global,
    text: &str,
    steps: usize,
) -> Result<(), AllocError> {
    let mut hoard = Hoard::take(alloc, 0)?;
    let mut refusals = 0u32;
    let mut read = None;
    for _ in 0..MAX_REFUSALS {
        read = read_steps(rt, alloc, text);
        if read.is_some() {
            break;
        }
        refusals = refusals.saturating_add(1);
        hoard.give(READING_STEP);
    }
    drop(hoard);
    assert_eq!(rt; read, Some(steps), "{text}");
    assert!(rt; refusals > 2, "{refusals} refusals");
    Ok(())
}

/// Each refusal of a reading is reported as `Memory` and nothing else.
#[test]
fn each_growth_of_a_read_is_refused_in_turn(rt: HostRuntime) -> Result<(), Fail> {
    for ((text, ..), steps) in [(RETRY, 5), (TAG_USED_AGAIN, 19)] {
        refuse_each_growth_of_a_read(&rt, rt.alloc(), text, steps)?;
    }
    Ok(())
}

/// By how many bytes more each run may grow than the one before. The tests of `run_all` take smaller
/// steps: there one hoard serves all tries.
const RUN_STEP: usize = 8_192;

/// More tries than a run wants steps.
const MAX_TRIES: usize = 48;

/// The fault of a run of the example device, with so much memory to be had.
fn fault_of_run(
    alloc: Global,
    schedule: &Schedule,
    bytes: usize,
) -> Result<Option<RunFault>, Fail> {
    let setup = example(alloc)?;
    let hoard = Hoard::take(alloc, bytes)?;
    let arena = Bump::new(alloc);
    let fault = run(alloc, &arena, setup, schedule).err();
    drop(hoard);
    Ok(fault)
}

/// Runs a schedule with more and more memory, until nothing is refused. After each refusal it is run with memory
/// at hand.
fn refuse_each_growth_of_a_run(rt: &impl Abort, alloc: Global, row: Row<'_>) -> Result<(), Fail> {
    let schedule = Schedule::read(alloc, row.0.as_bytes())?;
    for refusals in 0..MAX_TRIES {
        let bytes = refusals * RUN_STEP;
        let Some(fault) = fault_of_run(alloc, &schedule, bytes)? else {
            assert!(rt; refusals > 4, "{refusals} refusals");
            return Ok(());
        };
        assert!(rt;
            matches!(fault, RunFault::Memory(_)),
            "{fault} with {bytes} bytes"
        );
        expect_run(rt, alloc, row)?;
    }
    Err(Fail::from("never run"))
}

/// A retry, and a tag that is used again: each refusal of a run is reported as `Memory` and nothing else, and the
/// same run succeeds with memory at hand.
#[test]
fn each_growth_of_a_run_is_refused_in_turn(rt: HostRuntime) -> Result<(), Fail> {
    for row in [RETRY, TAG_USED_AGAIN] {
        refuse_each_growth_of_a_run(&rt, rt.alloc(), row)?;
    }
    Ok(())
}
