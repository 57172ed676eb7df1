//! The description of the example device with other lines around it, what a description states, and why one is refused.

use crate::example_device::description;
use crate::expect::expect_eq;
use pldm_device::{Description, FileFault};
use std::alloc::Global;
use std::process::Abort;

/// The description of the example device.
pub fn example_text(rt: &impl Abort, alloc: Global) -> String {
    description(alloc).expect(rt, "memory")
}

/// These texts, one after the other.
pub fn joined(rt: &impl Abort, alloc: Global, texts: &[&str]) -> String {
    let mut joined = String::new(alloc);
    for text in texts {
        joined.push_str(text).expect(rt, "memory");
    }
    joined
}

/// These lines in front of the example.
pub fn in_front(rt: &impl Abort, alloc: Global, lines: &str) -> String {
    joined(rt, alloc, &[lines, &example_text(rt, alloc)])
}

/// The example, and these lines after it.
pub fn after(rt: &impl Abort, alloc: Global, lines: &str) -> String {
    joined(rt, alloc, &[&example_text(rt, alloc), lines])
}

/// The text with another in the place of the first that is equal to `old`.
pub fn changed(rt: &impl Abort, alloc: Global, text: &str, old: &str, new: &str) -> String {
    let (front, back) = text.split_once(old).expect(rt, "the old text");
    joined(rt, alloc, &[front, new, back])
}

/// What a description states.
pub fn description_of(rt: &impl Abort, alloc: Global, text: &str) -> Description {
    Description::read(alloc, text.as_bytes()).expect(rt, "a description")
}

/// A description is refused for this fault. `change` is what is wrong in it.
pub fn is_refused(rt: &impl Abort, alloc: Global, text: &str, fault: FileFault, change: &str) {
    let read = Description::read(alloc, text.as_bytes()).err();
    expect_eq(rt, read, Some(fault), change);
}
