//! Messages of the standards' tables, bytes by hand, read and written.

use crate::expect::expect_eq;
use mctp_packet::{Body, Reason};
use pldm_wire::{
    Answer, AnswerFault, Code, Command, ERROR, ERROR_INVALID_DATA, ERROR_INVALID_LENGTH,
    ERROR_INVALID_PLDM_TYPE, ERROR_NOT_READY, ERROR_UNSUPPORTED_PLDM_CMD, EffecterValues, Kind,
    MAX_PART_BYTES, Number, RecordPart, RequestRef, ResponseRef, SetStateField, Size, StateFields,
    TransferFlag, VersionData, crc8, read_answer, read_command, read_request, read_response,
    write_answer, write_command,
};
use std::process::Abort;

mod answers;
mod checksums;
mod commands;

/// A number that fits its size.
fn number(rt: &impl Abort, size: Size, value: i64) -> Number {
    Number::new(size, value).expect(rt, "a number that fits its size")
}

/// The request that these bytes are.
fn request<'a>(rt: &impl Abort, bytes: &'a [u8]) -> RequestRef<'a> {
    read_request(bytes).expect(rt, "a request")
}

/// The response that these bytes are.
fn response<'a>(rt: &impl Abort, bytes: &'a [u8]) -> ResponseRef<'a> {
    read_response(bytes).expect(rt, "a response")
}

/// Bytes that are no response, and why.
const NO_RESPONSES: &[(&[u8], Reason)] = &[
    (&[0x01, 0x80, 0x00, 0x02, 0x00, 0x01], Reason::NotResponse),
    (&[0x01, 0x00, 0x00, 0x02], Reason::ShortHeader),
    (&[0x01, 0x40, 0x00, 0x02, 0x00, 0x01], Reason::Datagram),
];

#[test]
fn bytes_that_are_no_response_have_a_reason(rt: HostRuntime) {
    for (bytes, reason) in NO_RESPONSES {
        expect_eq(&rt, read_response(bytes).err(), Some(*reason), bytes);
    }
}

#[test]
fn generic_completion_codes_have_their_numbers(rt: HostRuntime) {
    for (code, number) in [
        (Code::ERROR, 0x01),
        (Code::ERROR_INVALID_DATA, 0x02),
        (Code::ERROR_INVALID_LENGTH, 0x03),
        (Code::ERROR_NOT_READY, 0x04),
        (Code::ERROR_UNSUPPORTED_PLDM_CMD, 0x05),
        (Code::ERROR_INVALID_PLDM_TYPE, 0x20),
    ] {
        expect_eq(&rt, code.get(), number, code);
    }
}

/// Values that are just beside what their size holds.
const BESIDE: &[(Size, i64)] = &[
    (Size::Uint8, -1),
    (Size::Uint8, 256),
    (Size::Sint8, -129),
    (Size::Sint8, 128),
    (Size::Uint16, 65_536),
    (Size::Sint16, -32_769),
    (Size::Sint16, 32_768),
    (Size::Uint32, 4_294_967_296),
    (Size::Sint32, -2_147_483_649),
    (Size::Sint32, 2_147_483_648),
];

#[test]
fn numbers_that_do_not_fit_are_not_made(rt: HostRuntime) {
    for (size, value) in BESIDE {
        expect_eq(&rt, Number::new(*size, *value), None, (size, value));
    }
}

/// Whether a part of a record may be so.
fn is_part(flag: TransferFlag, bytes: &[u8], checksum: Option<u8>) -> bool {
    RecordPart::new(flag, bytes, checksum).is_some()
}

#[test]
fn values_that_no_reader_accepts_are_not_made(rt: HostRuntime) {
    let (narrow, wide) = (number(&rt, Size::Uint8, 1), number(&rt, Size::Uint16, 1));
    let made = [
        StateFields::<SetStateField>::new(&[]).is_some(),
        StateFields::new(&[SetStateField::default(); 9]).is_some(),
        VersionData::new(&[]).is_some(),
        VersionData::new(&[0; 6]).is_some(),
        VersionData::new(&[0; 36]).is_some(),
        is_part(TransferFlag::Start, &[0; 304], None),
        is_part(TransferFlag::Start, &[], Some(0)),
        is_part(TransferFlag::End, &[], None),
        EffecterValues::new(narrow, wide).is_some(),
        TransferFlag::new(3).is_some(),
        Code::new(0).is_some(),
    ];
    expect_eq(&rt, made, [false; 11], "made");
}
