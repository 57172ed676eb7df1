//! What the table `control` of a description says.

use crate::device::descriptions::after;
use crate::expect::expect_eq;
use pldm_device::{ControlTable, FileFault};

/// The UUID of RFC 4122's examples, and the versions 1.2.1 and 1.0.0a.
const TABLE: &str = "\
[control]
uuid = 'f81d4fae7dec11d0a76500a0c91e6bf6'
base_version = 'f1f2f100'
pldm_version = 'F1F0F061'
assigned = true
";

/// What the table says.
const SAID: ControlTable = ControlTable {
    uuid: Some([
        0xf8, 0x1d, 0x4f, 0xae, 0x7d, 0xec, 0x11, 0xd0, 0xa7, 0x65, 0x00, 0xa0, 0xc9, 0x1e, 0x6b,
        0xf6,
    ]),
    base_version: Some([0xf1, 0xf2, 0xf1, 0x00]),
    control_version: None,
    pldm_version: Some([0xf1, 0xf0, 0xf0, 0x61]),
    assigned: true,
};

/// What a description without the table says.
const NOTHING: ControlTable = ControlTable {
    uuid: None,
    base_version: None,
    control_version: None,
    pldm_version: None,
    assigned: false,
};

/// Tables after the example, and what is read: what they say, or a fault.
const TABLES: &[(&str, Result<ControlTable, FileFault>)] = &[
    ("", Ok(NOTHING)),
    (TABLE, Ok(SAID)),
    ("[[control]]\n", Err(FileFault::WrongKind)),
    ("[control]\nuuid = 'f81d'\n", Err(FileFault::OutOfRange)),
    (
        "[control]\nbase_version = 'f1f3f10'\n",
        Err(FileFault::BadHex),
    ),
    ("[control]\nassigned = 1\n", Err(FileFault::WrongKind)),
    ("[control\n", Err(FileFault::Toml)),
];

#[test]
fn tables_after_the_example(rt: HostRuntime) {
    for (table, wanted) in TABLES {
        let text = after(&rt, rt.alloc(), table);
        let read = ControlTable::read(rt.alloc(), text.as_bytes());
        expect_eq(&rt, read, *wanted, table);
    }
}
