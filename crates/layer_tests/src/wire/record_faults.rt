//! Bytes that are no record, and the fault that reading them returns.

use crate::expect::expect_eq;
use pldm_pdr::{RecordFault, read};
use std::process::Abort;

const LOCATOR: [u8; 19] = [
    1, 0, 0, 0, 1, 1, 0, 0, 9, 0, // a header that counts 9 bytes
    2, 1, 1, 5, 100, 0, 1, 1, 9, // a terminus locator's fields
];

/// These bytes are no record, for this fault.
fn is_refused(rt: &impl Abort, bytes: &[u8], fault: RecordFault) {
    expect_eq(rt, read(bytes).err(), Some(fault), bytes);
}

/// A place in the locator, the byte that stands there, and the fault.
type Change = (usize, u8, RecordFault);

/// Each change of the locator has its fault.
fn are_refused(rt: &impl Abort, changes: &[Change]) {
    for (place, byte, fault) in changes {
        let mut bytes = LOCATOR;
        if let Some(other) = bytes.get_mut(*place) {
            *other = *byte;
        }
        is_refused(rt, &bytes, *fault);
    }
}

#[test]
fn faults_of_the_header(rt: HostRuntime) {
    for length in [0, 9, 18] {
        is_refused(&rt, &LOCATOR[..length], RecordFault::Length);
    }
    are_refused(
        &rt,
        &[
            (8, 19, RecordFault::Length), // counts its header
            (4, 2, RecordFault::Version),
            (5, 3, RecordFault::OtherType),
        ],
    );
}

/// Records whose fields have a fault, and the fault.
const FAULTY: &[(&[u8], RecordFault)] = &[
    // a locator with a byte too few, and one with a byte too many
    (
        &[1, 0, 0, 0, 1, 1, 0, 0, 8, 0, 2, 1, 1, 5, 100, 0, 1, 1],
        RecordFault::Short,
    ),
    (
        &[
            1, 0, 0, 0, 1, 1, 0, 0, 10, 0, 2, 1, 1, 5, 100, 0, 1, 1, 9, 0,
        ],
        RecordFault::LeftOver,
    ),
    // a state sensor with no set, and one with a set in no bytes
    (
        &[
            1, 0, 0, 0, 1, 4, 0, 0, 13, 0, 1, 0, 10, 0, 64, 0, 1, 0, 100, 0, 0, 0, 0,
        ],
        RecordFault::Count,
    ),
    (
        &[
            1, 0, 0, 0, 1, 4, 0, 0, 16, 0, 1, 0, 10, 0, 64, 0, 1, 0, 100, 0, 0, 0, 1, 1, 0, 0,
        ],
        RecordFault::States,
    ),
    // an entity's names with a language tag that is no ASCII, and with shared names
    (
        &[
            1, 0, 0, 0, 1, 16, 0, 0, 12, 0, 64, 0, 1, 0, 100, 0, 0, 1, 0xC3, 0, 0, 0,
        ],
        RecordFault::Tag,
    ),
    (
        &[1, 0, 0, 0, 1, 16, 0, 0, 8, 0, 64, 0, 1, 0, 100, 0, 1, 0],
        RecordFault::Shared,
    ),
    // an effecter's name that has no end
    (
        &[1, 0, 0, 0, 1, 13, 0, 0, 9, 0, 1, 0, 6, 0, 1, 1, 0, 0, 84],
        RecordFault::Short,
    ),
];

#[test]
fn faults_of_fields(rt: HostRuntime) {
    are_refused(
        &rt,
        &[
            (12, 2, RecordFault::Flag),
            (16, 2, RecordFault::Locator),
            (17, 2, RecordFault::Locator),
        ],
    );
    for (bytes, fault) in FAULTY {
        is_refused(&rt, bytes, *fault);
    }
}
