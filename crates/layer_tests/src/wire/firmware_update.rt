//! Commands and answers of firmware update, bytes by hand from the standard's layouts.

use crate::expect::expect_eq;
use pldm_update::{
    Component, TablePart, UpdateAnswer, UpdateCommand, UpdateFault, UpdateState,
    read_update_answer, read_update_command, update_answer_data, update_command_data,
    update_command_name,
};
use pldm_wire::{ERROR_INVALID_DATA, ERROR_INVALID_LENGTH, ERROR_UNSUPPORTED_PLDM_CMD, SUCCESS};
use std::process::Abort;

/// A command's number, its name, and its data.
const COMMANDS: &[(u8, &str, &[u8])] = &[
    (0x01, "QueryDeviceIdentifiers", &[]),
    (0x02, "GetFirmwareParameters", &[]),
    (
        0x10,
        "RequestUpdate",
        b"\x00\x01\x00\x00\x02\x00\x01\x10\x00\x01\x04v1.0",
    ),
    (
        0x13,
        "PassComponentTable",
        b"\x05\x0A\x00\x34\x12\x00\x07\x00\x00\x00\x01\x03abc",
    ),
    (
        0x14,
        "UpdateComponent",
        b"\x0A\x00\x34\x12\x01\x07\x00\x00\x00\x00\x20\x00\x00\x01\x00\x00\x00\x02\x00",
    ),
    (
        0x15,
        "RequestFirmwareData",
        &[0x00, 0x01, 0x00, 0x00, 0x20, 0x00, 0x00, 0x00],
    ),
    (0x16, "TransferComplete", &[0x00]),
    (0x17, "VerifyComplete", &[0x01]),
    (0x18, "ApplyComplete", &[0x01, 0x08, 0x00]),
    (0x1A, "ActivateFirmware", &[0x01]),
    (0x1B, "GetStatus", &[]),
    (0x1C, "CancelUpdateComponent", &[]),
    (0x1D, "CancelUpdate", &[]),
];

#[test]
fn commands_are_read_and_written(rt: HostRuntime) {
    for (number, name, data) in COMMANDS {
        let command = read_update_command(*number, data).expect(&rt, "a command");
        expect_eq(&rt, command.number(), *number, name);
        expect_eq(&rt, update_command_name(*number), Some(*name), number);
        let written = update_command_data(&command);
        expect_eq(&rt, written.as_slice(), *data, name);
    }
}

#[test]
fn fields_of_commands(rt: HostRuntime) {
    let read = read_update_command(0x15, COMMANDS[5].2);
    let wanted = UpdateCommand::RequestFirmwareData {
        offset: 256,
        length: 32,
    };
    expect_eq(
        &rt,
        read.as_ref().ok(),
        Some(&wanted),
        "RequestFirmwareData",
    );
    let read = read_update_command(0x13, COMMANDS[3].2);
    let Ok(
        UpdateCommand::PassComponentTable {
            part,
            component,
            comparison_stamp,
            version,
        },
    ) = &read
    else {
        panic!(&rt; "no PassComponentTable");
    };
    let wanted = Component {
        classification: 10,
        identifier: 0x1234,
        index: 0,
    };
    expect_eq(&rt, *part, TablePart::StartAndEnd, "part");
    expect_eq(&rt, *component, wanted, "component");
    expect_eq(&rt, *comparison_stamp, 7, "stamp");
    expect_eq(&rt, version.string_type(), 1, "type");
    expect_eq(&rt, version.text(), b"abc".as_slice(), "text");
}

/// A command's number, data that is none of it, and the completion code.
const NO_COMMANDS: &[(u8, &[u8], u8)] = &[
    (0x03, &[], ERROR_UNSUPPORTED_PLDM_CMD),
    (0x1B, &[0x00], ERROR_INVALID_LENGTH),
    (
        0x15,
        &[0x00, 0x01, 0x00, 0x00, 0x20, 0x00, 0x00],
        ERROR_INVALID_LENGTH,
    ),
    (
        0x13,
        b"\x05\x0A\x00\x34\x12\x00\x07\x00\x00\x00\x01\x03ab",
        ERROR_INVALID_LENGTH,
    ),
    (
        0x13,
        b"\x05\x0A\x00\x34\x12\x00\x07\x00\x00\x00\x01\x03abcd",
        ERROR_INVALID_LENGTH,
    ),
    (0x13, b"\x03", ERROR_INVALID_DATA),
    (0x13, b"", ERROR_INVALID_LENGTH),
];

#[test]
fn data_that_is_no_command_has_a_code(rt: HostRuntime) {
    for (number, data, code) in NO_COMMANDS {
        let refused = read_update_command(*number, data).err();
        expect_eq(&rt, refused.map(|c| c.get()), Some(*code), data);
    }
}

/// A command's number, and the data of an answer after SUCCESS.
const ANSWERS: &[(u8, &[u8])] = &[
    (0x10, &[0x00, 0x00, 0x01]),
    (0x13, &[0x00, 0x00]),
    (0x14, &[0x00, 0x00, 0x01, 0x00, 0x00, 0x00, 0x05, 0x00]),
    (0x15, &[0xDE, 0xAD, 0xBE, 0xEF]),
    (0x16, &[]),
    (0x17, &[]),
    (0x18, &[]),
    (0x1A, &[0x0A, 0x00]),
    (
        0x1B,
        &[0x03, 0x02, 0x00, 0x00, 0x32, 0x00, 0x01, 0x00, 0x00, 0x00],
    ),
    (0x1C, &[]),
    (
        0x1D,
        &[0x01, 0x02, 0x00, 0x00, 0x00, 0x00, 0x00, 0x00, 0x80],
    ),
];

#[test]
fn answers_are_read_and_written(rt: HostRuntime) {
    for (number, data) in ANSWERS {
        let answer = read_update_answer(*number, SUCCESS, data).expect(&rt, "an answer");
        expect_eq(&rt, answer.number(), Some(*number), data);
        expect_eq(&rt, answer.code(), SUCCESS, number);
        let written = update_answer_data(&answer);
        expect_eq(&rt, written.as_slice(), *data, number);
    }
}

#[test]
fn fields_of_answers(rt: HostRuntime) {
    let read = read_update_answer(0x1B, SUCCESS, ANSWERS[8].1);
    let wanted = UpdateAnswer::GetStatus {
        state: UpdateState::Download,
        previous: UpdateState::ReadyXfer,
        auxiliary_state: 0,
        auxiliary_status: 0,
        progress: 50,
        reason: 0,
        enabled_flags: 1,
    };
    expect_eq(&rt, read.as_ref().ok(), Some(&wanted), "GetStatus");
    let read = read_update_answer(0x15, 0x89, &[0x01]);
    expect_eq(
        &rt,
        read.as_ref().map(|a| a.code()).ok(),
        Some(0x89),
        "refusal",
    );
}

/// A command's number, data that is no answer to it after SUCCESS, and why.
const NO_ANSWERS: &[(u8, &[u8], UpdateFault)] = &[
    (0x03, &[], UpdateFault::OtherCommand),
    (0x16, &[0x00], UpdateFault::Length),
    (0x1B, &[0x03, 0x07], UpdateFault::Value),
    (0x1B, &[0x03], UpdateFault::Length),
    (0x15, &[0x00; 316], UpdateFault::Length),
];

#[test]
fn data_that_is_no_answer_has_a_fault(rt: HostRuntime) {
    for (number, data, fault) in NO_ANSWERS {
        let read = read_update_answer(*number, SUCCESS, data);
        expect_eq(&rt, read.err(), Some(*fault), number);
    }
}
