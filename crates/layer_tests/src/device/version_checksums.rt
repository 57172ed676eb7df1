//! The checksum that follows the versions of a description.

use crate::device::descriptions::{changed, description_of, in_front, is_refused};
use crate::expect::expect_eq;
use pldm_device::{FileFault, Platform};
use pldm_wire::{Answer, Command, VersionData};
use std::alloc::Global;
use std::process::Abort;

const VERSION: Command = Command::GetPldmVersion {
    data_transfer_handle: 0,
    transfer_operation_flag: 1,
    pldm_type: 0,
};

/// The version of base and its CRC-32, from another program.
const CHECKED: [u8; 8] = [0x00, 0xF0, 0xF0, 0xF1, 0xFB, 0x8F, 0x86, 0x4A];

/// The device with this line in front of its description reports these versions.
fn has_versions(rt: &impl Abort, alloc: Global, line: &str, versions: &[u8]) {
    let mut device = description_of(rt, alloc, &in_front(rt, alloc, line)).device;
    let wanted = Answer::GetPldmVersion {
        next_data_transfer_handle: 0,
        versions: VersionData::new(versions).expect(rt, "versions"),
    };
    let answer = device.perform(alloc, &VERSION);
    expect_eq(rt, answer.as_ref(), Ok(&wanted), line);
}

#[test]
fn a_version_and_its_checksum(rt: HostRuntime) {
    has_versions(&rt, rt.alloc(), "version_checksum = true\n", &CHECKED);
    has_versions(&rt, rt.alloc(), "version_checksum = false\n", &CHECKED[..4]);
}

/// The key in front of the example, and a version in the place of its own.
const FAULTY: &[(&str, &str, FileFault)] = &[
    ("version_checksum = 1\n", "00f0f0f1", FileFault::WrongKind),
    // 32 bytes
    (
        "version_checksum = true\n",
        "0000000000000000000000000000000000000000000000000000000000000000",
        FileFault::OutOfRange,
    ),
];

#[test]
fn faults_of_the_key(rt: HostRuntime) {
    for (line, version, fault) in FAULTY {
        let text = in_front(&rt, rt.alloc(), line);
        let text = changed(&rt, rt.alloc(), &text, "00f0f0f1", version);
        is_refused(&rt, rt.alloc(), &text, *fault, line);
    }
}
