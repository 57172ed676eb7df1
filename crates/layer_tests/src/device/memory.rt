//! A description is read with no memory at first, and with a little more after each refusal.

use crate::device::descriptions::example_text;
use crate::device::platforms::expect_example;
use crate::expect::expect_eq;
use crate::hoard::Hoard;
use mctp_packet::Memory;
use pldm_device::{Description, FileFault};
use std::alloc::{AllocError, Global};
use std::process::Abort;

/// How many bytes more there are after each refusal.
const STEP: usize = 16;

/// More refusals than a read of the example meets.
const MAX_REFUSALS: usize = 20_000;

/// Reads a description with a little more memory after each refusal, which is reported as `Memory` and nothing else.
fn read_at_last(rt: &impl Abort, alloc: Global, hoard: &mut Hoard, text: &str) -> Description {
    let memory = Memory::from(AllocError);
    for refusals in 0..MAX_REFUSALS {
        match Description::read(alloc, text.as_bytes()) {
            Ok(read) => {
                expect_eq(rt, refusals > 100, true, refusals);
                return read;
            }
            Err(fault) => expect_eq(rt, fault, FileFault::Memory(memory), refusals),
        }
        hoard.give(STEP);
    }
    panic!(rt; "never read")
}

#[test]
fn each_growth_of_a_read_is_refused_in_turn(rt: HostRuntime) {
    let text = example_text(&rt, rt.alloc());
    let mut hoard = Hoard::take(rt.alloc(), 0).expect(&rt, "room for the hoard");
    let read = read_at_last(&rt, rt.alloc(), &mut hoard, &text);
    drop(hoard);
    expect_example(&rt, &read);
}
