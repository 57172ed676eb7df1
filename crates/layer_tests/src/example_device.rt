//! The example device, as a description and before the lines of an input.

use std::alloc::{AllocError, Global};

const DEVICE: &str = r#"eid = 9
keep_ms = 1000
tid = 1
version0 = "00f0f0f1"
version2 = "00f2f1f1"
update_time = "00000000000000000000000000"
oem_update_time = "00000000000000000000000000"
[[numeric_sensor]]
id = 1
size = "uint8"
states = [1, 1, 1]
value = 40
[[numeric_effecter]]
id = 1
size = "uint8"
min = 0
max = 100
value = 10
[[state_effecter]]
id = 2
allowed = [[1, 2], [1, 2]]
values = [1, 1]
[[pdr]]
"#;

/// The description of the example device, whose one record has 300 bytes.
pub fn description(alloc: Global) -> Result<String, AllocError> {
    format!(in alloc; "{DEVICE}hex = \"01000000010100002201{:0580}\"\n", 0)
}

/// An input: the example device, the divider, and the lines of a capture or a schedule.
pub fn input(alloc: Global, lines: &str) -> Result<String, AllocError> {
    let device = description(alloc)?;
    format!(in alloc; "{device}%%\n{lines}")
}
