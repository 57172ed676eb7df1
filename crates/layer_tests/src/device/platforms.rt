//! The simulated device of the example, and another platform, each asked through the same trait.

use crate::device::descriptions::{description_of, example_text};
use crate::device::recorder::{Recorder, reported_tid};
use crate::expect::expect_eq;
use pldm_device::{Description, Platform, ReadingFault, SimDevice};
use pldm_wire::{Answer, Command, read_answer, read_response};
use std::alloc::Global;
use std::process::Abort;

/// The device of the example.
pub fn example(rt: &impl Abort, alloc: Global) -> SimDevice {
    description_of(rt, alloc, &example_text(rt, alloc)).device
}

/// The answer to the command that a response has.
pub fn answer(rt: &impl Abort, command: &Command, response: &[u8]) -> Answer {
    let response = read_response(response).expect(rt, "a response");
    read_answer(command, &response).expect(rt, "an answer")
}

/// What was read is the example.
pub fn expect_example(rt: &impl Abort, read: &Description) {
    expect_eq(rt, read.eid.get(), 9, "eid");
    expect_eq(rt, read.keep.get(), 1000, "keep_ms");
    let device = &read.device;
    expect_eq(rt, device.tid(), 1, "tid");
    expect_eq(rt, device.sensor(0), Some((1, 40)), "sensor");
    expect_eq(rt, device.sensor(1), None, "sensor");
    expect_eq(rt, device.numeric(0), Some((1, 10)), "numeric effecter");
    expect_eq(rt, device.numeric(1), None, "numeric effecter");
    expect_eq(rt, device.state(0), Some((2, &[1, 1])), "state effecter");
    expect_eq(rt, device.state(1), None, "state effecter");
    expect_eq(rt, device.record(0).map_or(0, <[u8]>::len), 300, "record");
}

#[test]
fn the_example_device(rt: HostRuntime) {
    let text = example_text(&rt, rt.alloc());
    expect_example(&rt, &description_of(&rt, rt.alloc(), &text));
}

/// A sensor, the reading that it is set to, and what comes of it.
const READINGS: &[(u16, i64, Result<(), ReadingFault>)] = &[
    (1, 255, Ok(())),
    (1, 256, Err(ReadingFault::OutOfSize)),
    (1, -1, Err(ReadingFault::OutOfSize)),
    (2, 1, Err(ReadingFault::NoSuchSensor)),
];

#[test]
fn readings_are_set(rt: HostRuntime) {
    let mut device = example(&rt, rt.alloc());
    for (id, value, wanted) in READINGS {
        expect_eq(&rt, device.set_reading(*id, *value), *wanted, (id, value));
    }
    expect_eq(&rt, device.sensor(0), Some((1, 255)), "the reading");
}

/// A recorder keeps each terminus ID that it is given, and has no sensor.
fn records_tids(rt: &impl Abort, alloc: Global, recorder: &mut Recorder) {
    expect_eq(rt, reported_tid(alloc, recorder), Ok(Some(0)), "at first");
    for tid in [7, 0] {
        let set = recorder.perform(alloc, &Command::SetTid { tid });
        expect_eq(rt, set.as_ref(), Ok(&Answer::SetTid), tid);
    }
    expect_eq(rt, recorder.tids(), &[7, 0], "terminus IDs");
    let set = recorder.set_reading(1, 1);
    expect_eq(rt, set, Err(ReadingFault::NoSuchSensor), "a reading");
}

#[test]
fn another_platform_behind_the_same_bound(rt: HostRuntime) {
    let mut device = example(&rt, rt.alloc());
    expect_eq(
        &rt,
        reported_tid(rt.alloc(), &mut device),
        Ok(Some(1)),
        "the example",
    );
    let mut recorder = Recorder::new(rt.alloc());
    records_tids(&rt, rt.alloc(), &mut recorder);
}
