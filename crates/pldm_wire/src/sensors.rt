//! The data of the commands of sensors (DSP0248) and of their answers, read and written.

ghost use Rattle.pldm_wire.specs.CommandReading.{request_in};
ghost use Rattle.pldm_wire.specs.AnswerReading.{answer_in};
ghost use Rattle.pldm_wire.specs.CommandTable.{get_sensor_reading, get_state_sensor_readings};
ghost use Rattle.std.specs.Prelude.{◌≡◌, ◌≤◌, [], ◌∷◌, ◌++◌, length};
ghost use Rattle.std.specs.List.{flat_map};
ghost use Rattle.arrayvec.specs.ArrayVec.{array_vec_len};
ghost use Rattle.byteorder.specs.Endian.{little_bytes};
ghost use Rattle.pldm_wire.specs.Sizes.{size_code};
ghost use Rattle.pldm_wire.specs.Numbers.{IsNumber, number_bytes};
ghost use Rattle.pldm_wire.specs.States.{IsComposite, sensor_bytes};

use crate::places::u16_in;
use crate::pushes::{push_number, push_u16};
use crate::{
    Answer, AnswerFault, Code, Command, MAX_STATES, Number, REQUEST_HEADER, RESPONSE_HEADER,
    SensorStateField, Size, StateFields,
};
use mctp_packet::Body;

/// GetSensorReading: sensor, rearm.
pub(crate) fn get_sensor_reading_in(bytes: &[u8]) -> Result<Command, Code>
    ensures { result ≡ request_in get_sensor_reading bytes.now }
{
    match bytes {
        [_, _, rearm] => Ok(Command::GetSensorReading {
            sensor: u16_in(bytes, 0),
            rearm: *rearm,
        }),
        _ => Err(Code::ERROR_INVALID_LENGTH),
    }
}

/// GetStateSensorReadings: sensor, rearm, a reserved byte.
pub(crate) fn get_state_sensor_readings_in(bytes: &[u8]) -> Result<Command, Code>
    ensures { result ≡ request_in get_state_sensor_readings bytes.now }
{
    match bytes {
        [_, _, rearm, _] => Ok(Command::GetStateSensorReadings {
            sensor: u16_in(bytes, 0),
            rearm: *rearm,
        }),
        _ => Err(Code::ERROR_INVALID_LENGTH),
    }
}

/// GetSensorReading's data after a request's header.
pub(crate) fn push_get_sensor_reading(body: &mut Body, sensor: u16, rearm: u8)
    requires { array_vec_len body.old ≤ REQUEST_HEADER }
    ensures { body.new.items ≡ body.old.items ++ (little_bytes 2 sensor ++ rearm ∷ []) }
{
    push_u16(body, sensor);
    body.push(rearm);
}

/// GetStateSensorReadings' data after a request's header: its reserved byte is 0.
pub(crate) fn push_get_state_sensor_readings(body: &mut Body, sensor: u16, rearm: u8)
    requires { array_vec_len body.old ≤ REQUEST_HEADER }
    ensures { body.new.items ≡ body.old.items ++ (little_bytes 2 sensor ++ rearm ∷ 0 ∷ []) }
{
    push_u16(body, sensor);
    body.push(rearm);
    body.push(0);
}

/// GetSensorReading's answer: data size, operational state, event enable, present, previous and
/// event state, number.
// Not inlined, so that the answer is written where it is wanted and not copied there.
#[inline(never)]
pub(crate) fn reading_answer_in(bytes: &[u8]) -> Result<Answer, AnswerFault>
    ensures { result ≡ answer_in get_sensor_reading bytes.now }
{
    let [
        code,
        operational,
        sensor_event_message_enable,
        present,
        previous,
        event,
        ..
    ] = bytes
    else {
        return Err(AnswerFault::Length);
    };
    let Some(size) = Size::from_code(*code) else {
        return Err(AnswerFault::Value);
    };
    if bytes.len() != 6 + size.width() {
        return Err(AnswerFault::Length);
    }
    Ok(Answer::GetSensorReading {
        operational: *operational,
        sensor_event_message_enable: *sensor_event_message_enable,
        present: *present,
        previous: *previous,
        event: *event,
        reading: Number::read(size, bytes, 6),
    })
}

/// GetStateSensorReadings' answer: count, as many fields.
// Not inlined, so that the answer is written where it is wanted and not copied there.
#[inline(never)]
#[tactic(auto, using(crate::proofs::FieldLists::field_counts))]
pub(crate) fn sensor_states_answer_in(bytes: &[u8]) -> Result<Answer, AnswerFault>
    ensures { result ≡ answer_in get_state_sensor_readings bytes.now }
{
    let [count, ..] = bytes else {
        return Err(AnswerFault::Length);
    };
    let count = usize::from(*count);
    if count == 0 || count > MAX_STATES {
        return Err(AnswerFault::Value);
    }
    if bytes.len() != 1 + 4 * count {
        return Err(AnswerFault::Length);
    }
    let (_, fields) = bytes.split_at(1);
    Ok(Answer::GetStateSensorReadings {
        fields: StateFields::<SensorStateField>::read(fields),
    })
}

/// The data of GetSensorReading's answer after a response's header.
pub(crate) fn push_reading_answer(
    body: &mut Body,
    operational: u8,
    sensor_event_message_enable: u8,
    present: u8,
    previous: u8,
    event: u8,
    reading: Number,
)
    requires { array_vec_len body.old ≤ RESPONSE_HEADER }
    ensures items { body.new.items ≡ body.old.items
        ++ (size_code reading.size ∷ operational ∷ sensor_event_message_enable ∷ present ∷ previous ∷ event
        ∷ number_bytes reading) }
    ensures range { IsNumber reading }
{
    body.push(reading.size().code());
    body.push(operational);
    body.push(sensor_event_message_enable);
    body.push(present);
    body.push(previous);
    body.push(event);
    push_number(body, reading);
}

/// The data of GetStateSensorReadings' answer after a response's header.
pub(crate) fn push_sensor_states_answer(body: &mut Body, fields: &StateFields<SensorStateField>)
    requires { array_vec_len body.old ≤ RESPONSE_HEADER }
    ensures items { body.new.items ≡ body.old.items
        ++ (length fields.now ∷ flat_map sensor_bytes fields.now) }
    ensures range { IsComposite fields.now }
{
    let fields = fields.as_slice();
    body.push(fields.len() as u8);
    for field in fields {
        body.push(field.operational);
        body.push(field.present);
        body.push(field.previous);
        body.push(field.event);
    }
}
