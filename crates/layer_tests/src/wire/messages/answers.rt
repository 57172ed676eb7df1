//! Answers read from bytes written by hand, and written again.

use super::*;

/// These bytes are the response with the answer to the command, and are written of it.
fn both_ways(rt: &impl Abort, bytes: &[u8], command: &Command, answer: &Answer) {
    let response = response(rt, bytes);
    let read = read_answer(command, &response).expect(rt, "an answer");
    expect_eq(rt, &read, answer, bytes);
    let written = write_answer(response.id(), response.kind(), &read);
    expect_eq(rt, written.as_slice(), bytes, answer);
}

#[test]
fn base_answers_are_read_and_written(rt: HostRuntime) {
    both_ways(
        &rt,
        &[0x01, 0x01, 0x00, 0x01, 0x00],
        &Command::SetTid { tid: 5 },
        &Answer::SetTid,
    );
    both_ways(
        &rt,
        &[0x01, 0x00, 0x00, 0x02, 0x00, 0x01],
        &Command::GetTid,
        &Answer::GetTid { tid: 1 },
    );
    both_ways(
        &rt,
        &[0x01, 0x00, 0x00, 0x02, 0xff],
        &Command::GetTid,
        &Answer::Refused(Code::new(0xff).expect(&rt, "a code")),
    );
    both_ways(
        &rt,
        &[
            0x01, 0x00, 0x00, 0x04, 0x00, 0x05, 0x00, 0x00, 0x00, 0x00, 0x00, 0x00, 0x80,
        ],
        &Command::GetPldmTypes,
        &Answer::GetPldmTypes {
            types: [5, 0, 0, 0, 0, 0, 0, 0x80],
        },
    );
}

/// The values that an effecter reports: what it will be set to, and what it is set to.
fn values(rt: &impl Abort, size: Size, pending: i64, present: i64) -> EffecterValues {
    EffecterValues::new(number(rt, size, pending), number(rt, size, present)).expect(rt, "one size")
}

#[test]
fn effecter_answers_are_read_and_written(rt: HostRuntime) {
    let get_value = Command::GetNumericEffecterValue { effecter: 1 };
    both_ways(
        &rt,
        &[0x01, 0x03, 0x02, 0x32, 0x00, 0x00, 0x01, 0x28, 0x28],
        &get_value,
        &Answer::GetNumericEffecterValue {
            operational: 1,
            values: values(&rt, Size::Uint8, 40, 40),
        },
    );
    both_ways(
        &rt,
        &[
            0x01, 0x03, 0x02, 0x32, 0x00, 0x03, 0x02, 0xfe, 0xff, 0x02, 0x01,
        ],
        &get_value,
        &Answer::GetNumericEffecterValue {
            operational: 2,
            values: values(&rt, Size::Sint16, -2, 258),
        },
    );
    both_ways(
        &rt,
        &[0x01, 0x01, 0x02, 0x31, 0x00],
        &Command::SetNumericEffecterValue {
            effecter: 1,
            value: number(&rt, Size::Uint8, 40),
        },
        &Answer::SetNumericEffecterValue,
    );
}

/// The request for the first part of a record.
fn get_pdr(record_handle: u32) -> Command {
    Command::GetPdr {
        record_handle,
        data_transfer_handle: 0,
        transfer_operation_flag: 1,
        request_count: 303,
        record_change_number: 0,
    }
}

/// The bytes of the longest answer before the part, 303 bytes of a record and its checksum.
const LONGEST: &[u8] = &[
    0x01, 0x00, 0x02, 0x51, 0x00, 0x00, 0x00, 0x00, 0x00, 0x00, 0x00, 0x00, 0x00, 0x04, 0x2f, 0x01,
];

#[test]
fn the_longest_part_fills_a_message(rt: HostRuntime) {
    let part = RecordPart::new(TransferFlag::End, &[7; MAX_PART_BYTES], Some(1));
    let answer = Answer::GetPdr {
        next_record_handle: 0,
        next_data_transfer_handle: 0,
        part: part.expect(&rt, "a part"),
    };
    let mut message = Body::new();
    let _ = message.try_extend_from_slice(LONGEST);
    let _ = message.try_extend_from_slice(&[7; 303]);
    let _ = message.try_push(1);
    expect_eq(&rt, message.is_full(), true, "the message");
    both_ways(&rt, message.as_slice(), &get_pdr(1), &answer);
}

/// A response that is no answer, and why.
type NoAnswer = (&'static [u8], AnswerFault);

/// This is why each of these responses is no answer to the command.
fn are_no_answers(rt: &impl Abort, command: &Command, rows: &[NoAnswer]) {
    for (bytes, fault) in rows {
        let read = read_answer(command, &response(rt, bytes));
        expect_eq(rt, read.err(), Some(*fault), bytes);
    }
}

/// Responses to GetTID.
const NO_TIDS: &[NoAnswer] = &[
    (
        &[0x01, 0x00, 0x00, 0x01, 0x00, 0x01],
        AnswerFault::OtherCommand,
    ),
    (
        &[0x01, 0x00, 0x02, 0x02, 0x00, 0x01],
        AnswerFault::OtherCommand,
    ),
    (&[0x01, 0x00, 0x00, 0x02, 0x00], AnswerFault::Length),
    (
        &[0x01, 0x00, 0x00, 0x02, 0x00, 0x01, 0xff],
        AnswerFault::Length,
    ),
];

/// Responses to GetSensorReading.
const NO_READINGS: &[NoAnswer] = &[
    (
        &[
            0x01, 0x00, 0x02, 0x11, 0x00, 0x06, 0x00, 0x00, 0x01, 0x01, 0x01, 0x28,
        ],
        AnswerFault::Value,
    ),
    (
        &[
            0x01, 0x00, 0x02, 0x11, 0x00, 0x02, 0x00, 0x00, 0x01, 0x01, 0x01, 0x28,
        ],
        AnswerFault::Length,
    ),
];

/// Responses to GetPDR.
const NO_PARTS: &[NoAnswer] = &[
    (
        &[
            0x01, 0x00, 0x02, 0x51, 0x00, 0x00, 0x00, 0x00, 0x00, 0x00, 0x00, 0x00, 0x00, 0x03,
            0x00, 0x00,
        ],
        AnswerFault::Value,
    ),
    (
        &[
            0x01, 0x00, 0x02, 0x51, 0x00, 0x00, 0x00, 0x00, 0x00, 0x00, 0x00, 0x00, 0x00, 0x05,
            0x30, 0x01,
        ],
        AnswerFault::Value,
    ),
    (
        &[
            0x01, 0x00, 0x02, 0x51, 0x00, 0x00, 0x00, 0x00, 0x00, 0x00, 0x00, 0x00, 0x00, 0x05,
            0xf0, 0x00,
        ],
        AnswerFault::Length,
    ),
];

#[test]
fn responses_that_are_no_answer_have_a_fault(rt: HostRuntime) {
    let reading = Command::GetSensorReading {
        sensor: 1,
        rearm: 0,
    };
    are_no_answers(&rt, &Command::GetTid, NO_TIDS);
    are_no_answers(&rt, &reading, NO_READINGS);
    are_no_answers(&rt, &get_pdr(0), NO_PARTS);
}

#[test]
fn data_after_a_refusal_is_ignored(rt: HostRuntime) {
    let bytes = [0x01, 0x00, 0x00, 0x02, 0x03, 0xff];
    let read = read_answer(&Command::GetTid, &response(&rt, &bytes));
    let refusal = Answer::Refused(Code::ERROR_INVALID_LENGTH);
    expect_eq(&rt, read.as_ref(), Ok(&refusal), "with data");
}

#[test]
fn a_command_of_another_type_is_refused(rt: HostRuntime) {
    let kind = Kind {
        pldm_type: 5,
        command: 2,
    };
    let refusal = Answer::Refused(Code::ERROR_INVALID_PLDM_TYPE);
    let written = write_answer(0, kind, &refusal);
    expect_eq(
        &rt,
        written.as_slice(),
        &[0x01, 0x00, 0x05, 0x02, 0x20],
        "refusal",
    );
}
