//! The longest record that a description may have.

use crate::device::descriptions::{description_of, example_text, is_refused, joined};
use crate::expect::expect_eq;
use pldm_device::FileFault;
use std::alloc::Global;
use std::process::Abort;

/// A record in hex with 65,535 bytes of data, and these bytes more.
fn record_with(rt: &impl Abort, alloc: Global, more: &str) -> String {
    let zeros = format!(in alloc; "{:065535}", 0).expect(rt, "memory");
    joined(rt, alloc, &["0100000001010000ffff", &zeros, &zeros, more])
}

/// The description of the example device with this record in hex in place of its own.
fn text_with(rt: &impl Abort, alloc: Global, record: &str) -> String {
    let text = example_text(rt, alloc);
    let (device, _) = text.split_once("[[pdr]]").expect(rt, "records");
    joined(rt, alloc, &[device, "[[pdr]]\nhex = '", record, "'\n"])
}

/// The device of this description has a record of so many bytes.
fn has_record(rt: &impl Abort, alloc: Global, text: &str, length: usize) {
    let read = description_of(rt, alloc, text);
    let record = read.device.record(0).expect(rt, "a record");
    expect_eq(rt, record.len(), length, "length");
}

#[test]
fn the_longest_record(rt: HostRuntime) {
    let text = text_with(&rt, rt.alloc(), &record_with(&rt, rt.alloc(), ""));
    has_record(&rt, rt.alloc(), &text, 65_545);
    let text = text_with(&rt, rt.alloc(), &record_with(&rt, rt.alloc(), "00"));
    is_refused(
        &rt,
        rt.alloc(),
        &text,
        FileFault::BadRecord,
        "a longer record",
    );
}
