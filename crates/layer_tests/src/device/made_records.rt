//! Records that the table `records` has made, compared with bytes that were written by hand.

use crate::device::descriptions::{description_of, is_refused, joined};
use crate::expect::expect_eq;
use pldm_device::FileFault;
use std::alloc::Global;
use std::process::Abort;

/// A device with a thing of each kind, up to its table.
const DEVICE: &str = r#"eid = 9
keep_ms = 1000
tid = 7
version0 = "00f0f0f1"
version2 = "00f2f1f1"
update_time = "00000000000000000000000000"
oem_update_time = "00000000000000000000000000"
pdr = [{ hex = "0400000001fe00000000" }]
numeric_sensor = [
    { id = 5, size = "sint8", states = [1, 1, 1], value = 40, name = "T1", unit = "degrees_c", modifier = -1,
      entity = [135, 2, 3], warning_high = 70, fatal_high = 100, critical_low = -30, normal_max = 50, nominal = 25 },
]
state_sensor = [{ id = 6, fields = [[0, 1, 9, 1], [0, 2, 2, 2]], name = "P", state_set = 260 }]
numeric_effecter = [{ id = 1, size = "uint8", min = 10, max = 100, value = 10, unit = 65, normal_min = 20 }]
state_effecter = [{ id = 2, allowed = [[1, 8]], values = [1], name = "L" }]
"#;

const TABLE: &str = "[records]\nname = 'B'\nentity = [64, 1, 100]\n";

/// Terminus handle 1, valid, terminus ID 7, container 100, an endpoint ID of one byte, 9.
const LOCATOR: &[u8] = &[5, 0, 0, 0, 1, 1, 0, 0, 9, 0, 1, 0, 1, 7, 100, 0, 1, 1, 9];

/// Entity 64, instance 1, container 100; no shared name, one name, "en", "B".
const ENTITY_NAMES: &[u8] = &[
    6, 0, 0, 0, 1, 16, 0, 0, 15, 0, 64, 0, 1, 0, 100, 0, 0, 1, 0x65, 0x6E, 0, 0, 0x42, 0, 0,
];

const NUMERIC_SENSOR: &[u8] = &[
    7, 0, 0, 0, 1, 2, 0, 0, 59, 0, // record handle 7, numeric sensor, 59 bytes
    1, 0, 5, 0, // terminus handle, sensor ID 5
    135, 0, 2, 0, 3, 0, // entity
    0, 1, // no init, a name
    2, 0xFF, 0, 0, 0, 0, 0, 0, 0, // degrees C, modifier -1, no other unit
    1, 1, // linear, sint8
    0, 0, 0x80, 0x3F, 0, 0, 0, 0, // resolution 1, offset 0
    0, 0, 0, 0, // accuracy and tolerances
    0, // hysteresis
    0x15, 0, // upper warning, upper fatal and lower critical; not volatile
    0, 0, 0, 0, 0, 0, 0x80, 0x3F, // no transition interval, an update each second
    127, 128, // max and min readable
    1, 0x33, // sint8; nominal, normal max, critical low, fatal high
    25, 50, 0, // nominal, normal max and min
    70, 0, // warning high and low
    0, 0xE2, // critical high and low
    100, 0, // fatal high and low
];

/// Sensor 5, one sensor with one name, "en", "T1".
const SENSOR_NAMES: &[u8] = &[
    8, 0, 0, 0, 1, 6, 0, 0, 15, 0, 1, 0, 5, 0, 1, 1, 0x65, 0x6E, 0, 0, 0x54, 0, 0x31, 0, 0,
];

/// Sensor 6 of the table's entity, two sensors of state set 260: states 1 and 9, and state 2.
const STATE_SENSOR: &[u8] = &[
    9, 0, 0, 0, 1, 4, 0, 0, 22, 0, 1, 0, 6, 0, 64, 0, 1, 0, 100, 0, 0, 1, 2, 4, 1, 2, 0x02, 0x02,
    4, 1, 1, 0x04,
];

/// Sensor 6, two sensors, the first with the name "P", the second with none.
const STATE_SENSOR_NAMES: &[u8] = &[
    10, 0, 0, 0, 1, 6, 0, 0, 14, 0, 1, 0, 6, 0, 2, 1, 0x65, 0x6E, 0, 0, 0x50, 0, 0, 0,
];

const NUMERIC_EFFECTER: &[u8] = &[
    11, 0, 0, 0, 1, 9, 0, 0, 53, 0, // record handle 11, numeric effecter, 53 bytes
    1, 0, 1, 0, // terminus handle, effecter ID 1
    64, 0, 1, 0, 100, 0, // entity
    0, 0, 0, 0, // no semantics, no init, no name
    65, 0, 0, 0, 0, 0, 0, 0, // percent
    1, 0, // linear, uint8
    0, 0, 0x80, 0x3F, 0, 0, 0, 0, // resolution 1, offset 0
    0, 0, 0, 0, // accuracy and tolerances
    0, 0, 0, 0, 0, 0, 0, 0, // no transition intervals
    100, 10, // max and min settable
    0, 0x04, // uint8; normal min
    0, 0, 20, 0, 0, // nominal, normal max and min, rated max and min
];

/// Effecter 2, with a name, one effecter of state set 0: states 1 and 8.
const STATE_EFFECTER: &[u8] = &[
    12, 0, 0, 0, 1, 11, 0, 0, 20, 0, 1, 0, 2, 0, 64, 0, 1, 0, 100, 0, 0, 0, 0, 1, 1, 0, 0, 2, 0x02,
    0x01,
];

/// Effecter 2, one effecter with one name, "en", "L".
const EFFECTER_NAMES: &[u8] = &[
    13, 0, 0, 0, 1, 13, 0, 0, 13, 0, 1, 0, 2, 0, 1, 1, 0x65, 0x6E, 0, 0, 0x4C, 0, 0,
];

const RECORDS: &[&[u8]] = &[
    &[4, 0, 0, 0, 1, 0xFE, 0, 0, 0, 0],
    LOCATOR,
    ENTITY_NAMES,
    NUMERIC_SENSOR,
    SENSOR_NAMES,
    STATE_SENSOR,
    STATE_SENSOR_NAMES,
    NUMERIC_EFFECTER,
    STATE_EFFECTER,
    EFFECTER_NAMES,
];

/// The device up to its table, and these lines.
fn text_with(rt: &impl Abort, alloc: Global, lines: &str) -> String {
    joined(rt, alloc, &[DEVICE, lines])
}

/// The device with these lines has these records.
fn has_records(rt: &impl Abort, alloc: Global, lines: &str, records: &[&[u8]]) {
    let read = description_of(rt, alloc, &text_with(rt, alloc, lines));
    for (place, record) in records.iter().enumerate() {
        expect_eq(rt, read.device.record(place), Some(*record), place);
    }
    expect_eq(rt, read.device.record(records.len()), None, "the end");
}

#[test]
fn a_thing_of_each_kind(rt: HostRuntime) {
    has_records(&rt, rt.alloc(), "", &RECORDS[..1]);
    has_records(&rt, rt.alloc(), TABLE, RECORDS);
}

/// What stands in place of the table, and the fault that is reported.
const FAULTS: &[(&str, FileFault)] = &[
    ("records = 1\n", FileFault::WrongKind),
    ("[records]\nname = 1\n", FileFault::WrongKind),
    ("[records]\nname = ''\n", FileFault::OutOfRange),
    ("[records]\nentity = [1, 2]\n", FileFault::OutOfRange),
    ("[records]\nentity = [1, 2, 65536]\n", FileFault::OutOfRange),
    ("[records]\nentity = [1, 'x']\n", FileFault::WrongKind),
];

#[test]
fn faults_of_the_table(rt: HostRuntime) {
    for (table, fault) in FAULTS {
        let text = text_with(&rt, rt.alloc(), table);
        is_refused(&rt, rt.alloc(), &text, *fault, table);
    }
}
