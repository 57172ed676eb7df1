//! The rows that the table has for sensors and effecters, laid out in columns.

use mctpctl_table::{Described, Table};
use std::alloc::Global;
use std::process::Abort;

/// The names of sensors 1 (two of them), 2 and 5 and of effecters 1 and 300. Effecter 300 has two fields, the first one
/// without a name, and the other with control characters in it.
const NAMES: [&str; 5] = [
    "05000000010600002000010001000102656e0000460061006e0000656e00006f00740068006500720000",
    "05000000010600002100010002000101656e0000540065006d007000e90072006100740075007200650000",
    "05000000010600001500010005000101656e000050006f0077006500720000",
    "05000000010d00001d00010001000101656e0000460061006e0020007300700065006500640000",
    "05000000010d0000120001002c01020001656e000062001b00850000",
];

/// Numeric sensor 1, RPM.
const FAN: &str = concat!(
    "0200000001020000470001000100400001000000000113000000000000000001020000803f",
    "0000000000000000000000000000000000000000000000000200000000000000000000000000000000000000",
);

/// Numeric sensor 2, tenths of a degree C.
const INLET: &str = concat!(
    "0200000001020000470001000200400001000000000102ff0000000000000001030000803f",
    "0000000000000000000000000000000000000000000000000300000000000000000000000000000000000000",
);

/// Numeric sensor 3, millivolts, without a name.
const VOLTS: &str = concat!(
    "0200000001020000470001000300400001000000000105fd0000000000000001020000803f",
    "0000000000000000000000000000000000000000000000000200000000000000000000000000000000000000",
);

/// State sensor 5: of the state set 260 it has the states 1 and 5.
const POWER: &str = "040000000104000011000100050040000100000000010104010122";

/// Numeric effecter 1, percent.
const SPEED: &str = concat!(
    "030000000109000035000100010040000100000000000001410000000000000001000000803f",
    "00000000000000000000000000000000000000000000000000",
);

/// State effecter 300 of two fields: state set 1 with the states 1 and 2, and 196 with 1 and 15.
const PAIR: &str = "06000000010b0000180001002c01400001000000000000000201000106c400020280";

/// The bytes that these hex digits are.
fn bytes(rt: &impl Abort, alloc: Global, digits: &str) -> Vec<u8> {
    hex::decode(alloc, digits).expect(rt, "hex digits")
}

/// Adds what a record describes, and what came for it.
fn add(rt: &impl Abort, alloc: Global, table: &mut Table, record: &str, message: Option<&str>) {
    let mut records = Vec::new(alloc);
    for name in NAMES {
        records.push(bytes(rt, alloc, name)).expect(rt, "memory");
    }
    let record = bytes(rt, alloc, record);
    match message {
        Some(message) => {
            let message = bytes(rt, alloc, message);
            add_bytes(rt, alloc, table, &record, &records, Some(&message));
        }
        None => add_bytes(rt, alloc, table, &record, &records, None),
    }
}

/// Adds what a record's bytes describe, with its names among these records, and what came for it.
fn add_bytes(
    rt: &impl Abort,
    alloc: Global,
    table: &mut Table,
    record: &[u8],
    records: &[Vec<u8>],
    message: Option<&[u8]>,
) {
    let read = Described::read(alloc, record, records).expect(rt, "memory");
    if let Some(described) = read {
        table.add(&described, message).expect(rt, "memory");
    }
}

/// Checks the text of a table.
fn expect(rt: &impl Abort, alloc: Global, table: &Table, text: &str) {
    let mut out = Vec::new(alloc);
    table.push_text(&mut out).expect(rt, "memory");
    assert_eq!(rt; out.as_slice(), text.as_bytes());
}

#[test]
fn answers(rt: HostRuntime) {
    let mut table = Table::new(rt.alloc());
    add(
        &rt,
        rt.alloc(),
        &mut table,
        FAN,
        Some("01000211000200000101016810"),
    );
    add(
        &rt,
        rt.alloc(),
        &mut table,
        INLET,
        Some("01000211000301000801089f01"),
    );
    add(
        &rt,
        rt.alloc(),
        &mut table,
        VOLTS,
        Some("0100021100020000000101082f"),
    );
    add(
        &rt,
        rt.alloc(),
        &mut table,
        POWER,
        Some("01000221000100010101"),
    );
    add(
        &rt,
        rt.alloc(),
        &mut table,
        SPEED,
        Some("010002320000003228"),
    );
    add(
        &rt,
        rt.alloc(),
        &mut table,
        PAIR,
        Some("0100023a0002010102090f0f"),
    );
    let text = "\
sensor 1      Fan          4200 rpm                   normal
sensor 2      Température  41.5 °C                    upperWarning, disabled
sensor 3      -            12.040 V                   unknown
sensor 5      Power        state 1 (set 260: 1, 5)    enabled
effecter 1    Fan speed    40 %                       enabled-updatePending
effecter 300  -            state 2 (set 1: 1, 2)      enabled-noUpdatePending
effecter 300  b\u{fffd}\u{fffd}          state 15 (set 196: 1, 15)  state 9
";
    expect(&rt, rt.alloc(), &table, text);
}

#[test]
fn no_answers(rt: HostRuntime) {
    let mut table = Table::new(rt.alloc());
    expect(&rt, rt.alloc(), &table, "");
    add(&rt, rt.alloc(), &mut table, FAN, None);
    add(&rt, rt.alloc(), &mut table, FAN, Some("0100021180"));
    add(
        &rt,
        rt.alloc(),
        &mut table,
        FAN,
        Some("01000221000100010101"),
    );
    add(
        &rt,
        rt.alloc(),
        &mut table,
        FAN,
        Some("010002110002000001010168"),
    );
    add(
        &rt,
        rt.alloc(),
        &mut table,
        POWER,
        Some("0100022100020001010100010101"),
    );
    add(&rt, rt.alloc(), &mut table, SPEED, Some("01000232c0"));
    add(&rt, rt.alloc(), &mut table, NAMES[0], None);
    add(&rt, rt.alloc(), &mut table, "00", None);
    let text = "\
sensor 1    Fan        -  no answer
sensor 1    Fan        -  refused INVALID_SENSOR_ID
sensor 1    Fan        -  wrong answer
sensor 1    Fan        -  wrong answer
sensor 5    Power      -  wrong answer
effecter 1  Fan speed  -  refused c0
";
    expect(&rt, rt.alloc(), &table, text);
}

/// The names of sensor 1 of two termini, the other one's first.
const NAMES_OF_TWO: [&str; 2] = [
    "05000000010600001500020001000101656e00004f00740068006500720000",
    "05000000010600001100010001000101656e0000460061006e0000",
];

/// Adds numeric sensor 1 of terminus 1 with these units, whose reading is 500.
fn add_in_units(rt: &impl Abort, alloc: Global, table: &mut Table, units: &str) {
    let start = "02000000010200004700010001004000010000000001";
    let end = "01020000803f";
    let mut record = bytes(rt, alloc, start);
    let mut more = bytes(rt, alloc, units);
    record.append(&mut more).expect(rt, "memory");
    let mut more = bytes(rt, alloc, end);
    record.append(&mut more).expect(rt, "memory");
    let mut more = bytes(
        rt,
        alloc,
        "0000000000000000000000000000000000000000000000000200000000000000000000000000000000000000",
    );
    record.append(&mut more).expect(rt, "memory");
    let reading = bytes(rt, alloc, "0100021100020000010101f401");
    add_bytes(rt, alloc, table, &record, &[], Some(&reading));
}

/// A base unit and a rate are shown; what a record says beyond that makes a number raw.
#[test]
fn units(rt: HostRuntime) {
    let mut table = Table::new(rt.alloc());
    for units in [
        "130000000000000000", // RPM
        "260004000000000000", // revolutions a minute
        "3d0003000000000000", // bytes a second
        "3d0303000000000000", // thousands of these
        "010003000000000000", // a second, of an unspecified unit
        "000000000000000000", // none
        "1f0003001500000000", // meters a second, by seconds
        "1f0000001500000100", // meters, times seconds
        "5a0000000000000000", // a unit without a name
        "3d000a000000000000", // a rate without one
    ] {
        add_in_units(&rt, rt.alloc(), &mut table, units);
    }
    let text = "\
sensor 1  -  500 rpm                 normal
sensor 1  -  500 revolutions/minute  normal
sensor 1  -  500 bytes/second        normal
sensor 1  -  500000 bytes/second     normal
sensor 1  -  500 unspecified/second  normal
sensor 1  -  500                     normal
sensor 1  -  500 raw                 normal
sensor 1  -  500 raw                 normal
sensor 1  -  500 raw                 normal
sensor 1  -  500 raw                 normal
";
    expect(&rt, rt.alloc(), &table, text);
}

/// A name is of the sensor's own terminus.
#[test]
fn names_of_two_termini(rt: HostRuntime) {
    let mut records = Vec::new(rt.alloc());
    for name in NAMES_OF_TWO {
        records
            .push(bytes(&rt, rt.alloc(), name))
            .expect(&rt, "memory");
    }
    let record = bytes(&rt, rt.alloc(), FAN);
    let mut table = Table::new(rt.alloc());
    add_bytes(&rt, rt.alloc(), &mut table, &record, &records, None);
    expect(&rt, rt.alloc(), &table, "sensor 1  Fan  -  no answer\n");
}

/// Two names of 72 characters have more bytes than the records that this project writes.
#[test]
fn long_names(rt: HostRuntime) {
    let mut names = bytes(&rt, rt.alloc(), "05000000010600003001010001000102");
    for _ in 0..2 {
        for byte in *b"en\0" {
            names.push(byte).expect(&rt, "memory");
        }
        for _ in 0..72 {
            names.push(0).expect(&rt, "memory");
            names.push(b'A').expect(&rt, "memory");
        }
        names.push(0).expect(&rt, "memory");
        names.push(0).expect(&rt, "memory");
    }
    let mut records = Vec::new(rt.alloc());
    records.push(names).expect(&rt, "memory");
    let record = bytes(&rt, rt.alloc(), FAN);
    let mut table = Table::new(rt.alloc());
    add_bytes(&rt, rt.alloc(), &mut table, &record, &records, None);
    let text = "\
sensor 1  AAAAAAAAAAAAAAAAAAAAAAAAAAAAAAAAAAAAAAAAAAAAAAAAAAAAAAAAAAAAAAAAAAAAAAAA  -  no answer
";
    expect(&rt, rt.alloc(), &table, text);
}
