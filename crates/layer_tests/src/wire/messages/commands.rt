//! Commands read from bytes written by hand, and written again.

use super::*;

/// These bytes are the request with the command, and are written of it.
fn both_ways(rt: &impl Abort, bytes: &[u8], command: &Command) {
    let request = request(rt, bytes);
    expect_eq(rt, read_command(&request).as_ref(), Ok(command), bytes);
    expect_eq(rt, command.kind(), request.kind(), bytes);
    let written = write_command(request.id(), command);
    expect_eq(rt, written.as_slice(), bytes, command);
}

/// The data size and the value as they are sent, and what they are.
const VALUES: &[(&[u8], Size, i64)] = &[
    (&[0x00, 0x28], Size::Uint8, 40),
    (&[0x00, 0xff], Size::Uint8, 255),
    (&[0x01, 0x80], Size::Sint8, -128),
    (&[0x01, 0x7f], Size::Sint8, 127),
    (&[0x02, 0xfe, 0xff], Size::Uint16, 65_534),
    (&[0x02, 0xff, 0xff], Size::Uint16, 65_535),
    (&[0x03, 0xfe, 0xff], Size::Sint16, -2),
    (&[0x03, 0x00, 0x80], Size::Sint16, -32_768),
    (&[0x03, 0xff, 0x7f], Size::Sint16, 32_767),
    (&[0x04, 0xff, 0xff, 0xff, 0xff], Size::Uint32, 4_294_967_295),
    (&[0x04, 0xfe, 0xff, 0xff, 0xff], Size::Uint32, 4_294_967_294),
    (&[0x05, 0xfe, 0xff, 0xff, 0xff], Size::Sint32, -2),
    (
        &[0x05, 0x00, 0x00, 0x00, 0x80],
        Size::Sint32,
        -2_147_483_648,
    ),
    (&[0x05, 0xff, 0xff, 0xff, 0x7f], Size::Sint32, 2_147_483_647),
];

#[test]
fn numeric_effecters_are_set_at_each_size(rt: HostRuntime) {
    for (data, size, value) in VALUES {
        let mut bytes = Body::new();
        let _ = bytes.try_extend_from_slice(&[0x01, 0x81, 0x02, 0x31, 0x01, 0x00]);
        let _ = bytes.try_extend_from_slice(data);
        let command = Command::SetNumericEffecterValue {
            effecter: 1,
            value: number(&rt, *size, *value),
        };
        both_ways(&rt, bytes.as_slice(), &command);
    }
}

/// These bytes are a request with a command that is written as the others.
fn is_written_as(rt: &impl Abort, bytes: &[u8], others: &[u8]) {
    let request = request(rt, bytes);
    let command = read_command(&request).expect(rt, "a command");
    let written = write_command(request.id(), &command);
    expect_eq(rt, written.as_slice(), others, bytes);
}

/// A request for states with a byte that is reserved.
const RESERVED_BYTE: &[u8] = &[0x01, 0x80, 0x02, 0x21, 0x03, 0x00, 0xff, 0x55];

/// A request that sets two states and has eight fields.
const ALL_FIELDS: &[u8] = &[
    0x01, 0x81, 0x02, 0x39, 0x02, 0x00, 0x02, 0x01, 0x02, 0x00, 0x09, 0x05, 0x05, 0x05, 0x05, 0x05,
    0x05, 0x05, 0x05, 0x05, 0x05, 0x05, 0x05,
];

#[test]
fn ignored_bytes_are_not_written_again(rt: HostRuntime) {
    let readings = Command::GetStateSensorReadings {
        sensor: 3,
        rearm: 0xff,
    };
    let reserved_byte = request(&rt, RESERVED_BYTE);
    expect_eq(
        &rt,
        read_command(&reserved_byte).as_ref(),
        Ok(&readings),
        RESERVED_BYTE,
    );
    is_written_as(
        &rt,
        RESERVED_BYTE,
        &[0x01, 0x80, 0x02, 0x21, 0x03, 0x00, 0xff, 0x00],
    );
    expect_eq(&rt, request(&rt, ALL_FIELDS).data().len(), 19, ALL_FIELDS);
    is_written_as(&rt, ALL_FIELDS, &ALL_FIELDS[..11]);
}

/// Requests that are refused, each with the completion code.
const REFUSED: &[(&[u8], u8)] = &[
    (&[0x01, 0x80, 0x05, 0x02], 0x20),
    (&[0x01, 0x81, 0x00, 0x10], 0x05),
    (&[0x01, 0x81, 0x02, 0x12], 0x05),
    (&[0x01, 0x82, 0x00, 0x02, 0x00], 0x03),
    (&[0x01, 0x80, 0x02, 0x31, 0x01, 0x00, 0x06], 0x03),
    (&[0x01, 0x80, 0x02, 0x31, 0x01, 0x00, 0x06, 0x28], 0x02),
    (&[0x01, 0x80, 0x02, 0x31, 0x01, 0x00, 0x02, 0x28], 0x03),
    (&[0x01, 0x80, 0x02, 0x39, 0x02, 0x00, 0x00], 0x02),
    (&[0x01, 0x80, 0x02, 0x39, 0x02, 0x00, 0x09], 0x02),
    (&[0x01, 0x80, 0x02, 0x39, 0x02, 0x00, 0x02, 0x01], 0x03),
    (
        &[0x01, 0x80, 0x02, 0x39, 0x02, 0x00, 0x01, 0x01, 0x02, 0x03],
        0x03,
    ),
];

#[test]
fn refused_commands_have_a_code(rt: HostRuntime) {
    for (bytes, number) in REFUSED {
        let code = read_command(&request(&rt, bytes)).err();
        expect_eq(&rt, code.map(Code::get), Some(*number), bytes);
    }
}
