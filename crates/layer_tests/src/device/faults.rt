//! Descriptions with one fault, and one at every limit.

use crate::device::descriptions::{after, changed, description_of, example_text, is_refused};
use crate::expect::expect_eq;
use pldm_device::FileFault;
use std::alloc::Global;
use std::process::Abort;

/// A text of a description, what stands in its place, and the fault.
type Change = (&'static str, &'static str, FileFault);

/// The description is refused with each of these changes.
fn are_refused(rt: &impl Abort, alloc: Global, text: &str, changes: &[Change]) {
    for (old, new, fault) in changes {
        let text = changed(rt, alloc, text, old, new);
        is_refused(rt, alloc, &text, *fault, new);
    }
}

/// Changes of the example.
const FAULTY: &[Change] = &[
    ("max = 100", "max = 9", FileFault::OutOfRange),
    ("\"00f0f0f1\"", "\"00f\"", FileFault::BadHex),
    ("\"uint8\"", "1", FileFault::WrongKind),
    ("\nupdate_time", "\nx", FileFault::MissingKey),
];

/// A second sensor 1.
const SENSOR: &str = "\
[[numeric_sensor]]
id = 1
size = 'sint8'
states = [0, 0, 0]
value = 0
";

#[test]
fn faults_of_changed_descriptions(rt: HostRuntime) {
    are_refused(&rt, rt.alloc(), &example_text(&rt, rt.alloc()), FAULTY);
    let twice = after(&rt, rt.alloc(), SENSOR);
    is_refused(&rt, rt.alloc(), &twice, FileFault::Duplicate, SENSOR);
}

/// Adds this to a text so many times.
fn push(rt: &impl Abort, text: &mut String, item: &str, count: u32) {
    for _ in 0..count {
        text.push_str(item).expect(rt, "memory");
    }
}

/// Adds a thousand sensors to a text.
fn push_sensors(rt: &impl Abort, alloc: Global, text: &mut String) {
    let size = "size = 'sint32'\nstates = [10, 10, 10]\nvalue = -2147483648\n";
    for id in 0..1_000 {
        let sensor = format!(in alloc; "[[numeric_sensor]]\nid = {id}\n{size}");
        push(rt, text, &sensor.expect(rt, "memory"), 1);
    }
}

/// Adds the numbers of 256 states to a text.
fn push_states(rt: &impl Abort, alloc: Global, text: &mut String) {
    for state in 0..256 {
        let state = format!(in alloc; "{state},");
        push(rt, text, &state.expect(rt, "memory"), 1);
    }
}

/// Adds lists to a text that have as many items as they may.
fn push_lists(rt: &impl Abort, alloc: Global, text: &mut String) {
    push_sensors(rt, alloc, text);
    push(rt, text, "[[state_sensor]]\nid = 65535\nfields = [", 1);
    push(rt, text, "[255, 255, 255, 255],", 8);
    push(
        rt,
        text,
        "]\n[[state_effecter]]\nid = 65535\nallowed = [[",
        1,
    );
    push_states(rt, alloc, text);
    push(rt, text, "],", 1);
    push(rt, text, "[7],", 7);
    push(rt, text, "]\nvalues = [255, 7, 7, 7, 7, 7, 7, 7]\n", 1);
}

/// A description whose lists have as many items as they may.
fn at_its_limits(rt: &impl Abort, alloc: Global) -> String {
    let example = example_text(rt, alloc);
    let (front, _) = example.split_once("[[numeric_sensor]]").expect(rt, "lists");
    let mut text = String::new(alloc);
    push(rt, &mut text, front, 1);
    push_lists(rt, alloc, &mut text);
    text
}

/// Checks the last of what is in a description at its limits.
fn expect_last(rt: &impl Abort, alloc: Global, text: &str) {
    let read = description_of(rt, alloc, text);
    let device = &read.device;
    expect_eq(rt, device.sensor(999), Some((999, -2_147_483_648)), 999);
    expect_eq(rt, device.sensor(1_000), None, 1_000);
    let states: &[u8] = &[255, 7, 7, 7, 7, 7, 7, 7];
    expect_eq(
        rt,
        device.state(0),
        Some((65_535, states)),
        "state effecter",
    );
}

/// Changes of the description at its limits, each over one of them.
const OVER: &[Change] = &[
    ("255,],", "255,255],", FileFault::OutOfRange),
    (
        "fields = [",
        "fields = [[0, 0, 0, 0],",
        FileFault::OutOfRange,
    ),
    (
        "[[state_sensor]]",
        "[[numeric_sensor]]\n[[state_sensor]]",
        FileFault::OutOfRange,
    ),
];

/// With memory at hand nothing is refused at the limits, and what is over one of them is.
#[test]
fn a_description_at_its_limits(rt: HostRuntime) {
    let text = at_its_limits(&rt, rt.alloc());
    expect_last(&rt, rt.alloc(), &text);
    are_refused(&rt, rt.alloc(), &text, OVER);
}
