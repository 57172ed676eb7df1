//! What a lamp answers to a command, and what the command leaves: both platforms are made of these.

ghost use Rattle.std.specs.Prelude.{◌≡◌, IfSome, is_some};
ghost use Rattle.pldm_wire.specs.Numbers.{sized};
ghost use Rattle.lamp_board.specs.Lamps.{is_level, lamp_after, lamp_answer, level_set, reading, values};

use pldm_platform::{INVALID_EFFECTER_ID, INVALID_SENSOR_ID, code, refused};
use pldm_wire::{Answer, Code, Command, EffecterValues, Number, Size};

/// The terminus ID of a lamp.
pub const TID: u8 = 1;

/// The numeric effecter that sets the level.
pub const EFFECTER: u16 = 1;

/// The numeric sensor that reads the level.
pub const SENSOR: u16 = 1;

/// The greatest level, in percent. The least is 0.
pub const FULL_LEVEL: i64 = 100;

/// DSP0248's states: a sensor that is enabled and whose reading is normal, and an effecter that is enabled and has no
/// update pending.
pub const SENSOR_ENABLED: u8 = 0;

pub const NORMAL: u8 = 1;

pub const EFFECTER_ENABLED: u8 = 1;

/// The level of so many percent, a number of the data size uint8, where it is one.
pub fn level_of(percent: i64) -> Option<Number>
    ensures test { is_some result ≡ is_level percent }
    ensures value { IfSome result (λ level. level ≡ sized Size.Uint8 percent) }
{
    if percent < 0 || percent > FULL_LEVEL {
        return None;
    }
    Number::new(Size::Uint8, percent)
}

/// What a lamp of this level answers to a command.
pub(crate) fn answer(level: Number, command: &Command) -> Answer
    ensures { result ≡ lamp_answer level command.now }
{
    match command {
        Command::GetTid => Answer::GetTid { tid: TID },
        Command::GetPldmTypes => Answer::GetPldmTypes {
            types: [5, 0, 0, 0, 0, 0, 0, 0],
        },
        Command::GetSensorReading { sensor, .. } => read_sensor(*sensor, level),
        Command::GetNumericEffecterValue { effecter } => read_effecter(*effecter, level),
        Command::SetNumericEffecterValue { effecter, value } => match set_level(*effecter, *value) {
            Ok(_) => Answer::SetNumericEffecterValue,
            Err(code) => Answer::Refused(code),
        },
        _ => Answer::Refused(Code::ERROR_UNSUPPORTED_PLDM_CMD),
    }
}

/// The level that a command leaves. Only one that sets changes it, and a refused one does not.
pub(crate) fn after(level: Number, command: &Command) -> Number
    ensures { result ≡ lamp_after level command.now }
{
    match command {
        Command::SetNumericEffecterValue { effecter, value } => match set_level(*effecter, *value) {
            Ok(set) => set,
            Err(_) => level,
        },
        _ => level,
    }
}

/// The level that an effecter is set to, or the completion code that refuses it.
fn set_level(effecter: u16, value: Number) -> Result<Number, Code>
    ensures { result ≡ level_set effecter value }
{
    if effecter != EFFECTER {
        return Err(code(INVALID_EFFECTER_ID));
    }
    if value.size() != Size::Uint8 || value.value() < 0 || value.value() > FULL_LEVEL {
        return Err(Code::ERROR_INVALID_DATA);
    }
    Ok(value)
}

/// The reading of a sensor.
fn read_sensor(sensor: u16, level: Number) -> Answer
    ensures { result ≡ reading sensor level }
{
    if sensor != SENSOR {
        return refused(INVALID_SENSOR_ID);
    }
    Answer::GetSensorReading {
        operational: SENSOR_ENABLED,
        sensor_event_message_enable: 0,
        present: NORMAL,
        previous: NORMAL,
        event: NORMAL,
        reading: level,
    }
}

/// The values of an effecter: no other one is pending.
fn read_effecter(effecter: u16, level: Number) -> Answer
    ensures { result ≡ values effecter level }
{
    if effecter != EFFECTER {
        return refused(INVALID_EFFECTER_ID);
    }
    match EffecterValues::new(level, level) {
        Some(values) => Answer::GetNumericEffecterValue {
            operational: EFFECTER_ENABLED,
            values,
        },
        None => unreachable!(),
    }
}
