//! A board with two fans and a thermometer, behind a bus that fails now and then.

ghost use Rattle.std.specs.Prelude.{◌≡◌, ℕ, ◌==◌, ◌<◌, ◌≤◌, pos, count_by, IfOk, Ok, Err, if◌then◌else◌};
ghost use Rattle.pldm_wire.specs.Answers.{IsAnswerTo};
ghost use Rattle.pldm_wire.specs.Commands.{kind_of};
ghost use Rattle.pldm_responder.specs.Asked.{listed};
ghost use Rattle.fan_board.specs.BoardCommands.{answer_now, answer_of, board_after, board_answer, board_response, byte_number, code_of, fan_of, is_bus_failing, left_now, transferred};
ghost use Rattle.fan_board.specs.Boards.{board_at, board_at_first};

use mctp_packet::Moment;
use pldm_wire::{
    Answer, Code, Command, ERROR_INVALID_LENGTH, ERROR_UNSUPPORTED_PLDM_CMD, EffecterValues,
    Number, RequestRef, SUCCESS, Size,
};
use std::marker::Model;

/// The number of the completion codes for a sensor or an effecter that the board does not have (DSP0248,
/// INVALID_SENSOR_ID and INVALID_EFFECTER_ID).
const INVALID_ID: u8 = 0x80;

/// Why the board does not do what a command asks.
#[derive(Clone, Copy, Debug, PartialEq, Eq)]
pub(crate) enum BoardFault {
    /// The transfer over its bus failed.
    Bus,
    /// It has no sensor or effecter with this ID.
    UnknownId,
    /// The value is no speed.
    NoSpeed,
    /// It does not know the command.
    UnknownCommand,
}

impl BoardFault {
    /// The completion code that reports it.
    pub(crate) fn code(self) -> Code
        ensures { result ≡ code_of self }
    {
        match self {
            BoardFault::Bus => Code::ERROR,
            BoardFault::UnknownId => match Code::new(INVALID_ID) {
                Some(code) => code,
                None => unreachable!(),
            },
            BoardFault::NoSpeed => Code::ERROR_INVALID_DATA,
            BoardFault::UnknownCommand => Code::ERROR_UNSUPPORTED_PLDM_CMD,
        }
    }
}

/// The number of its one command of PLDM type 63 (OEM): how many transfers were good since one failed.
const GET_TRANSFERS: u8 = 1;

/// The terminus ID of the board.
const TID: u8 = 5;

/// The ID of its thermometer.
const THERMOMETER: u16 = 1;

/// The least and the greatest temperature in degrees Celsius.
pub const COLDEST: u8 = 20;

pub const HOTTEST: u8 = 100;

/// The temperature at first.
const FIRST_DEGREES: u8 = 30;

/// The greatest speed of a fan in percent.
const FULL_SPEED: i64 = 100;

/// How many fans it has: effecters 1 to this.
const FANS: usize = 2;

/// After how many transfers one fails.
const GOOD_TRANSFERS: u8 = 3;

/// Milliseconds in a second.
const SECOND: u64 = 1_000;

/// DSP0248's states: a sensor that is enabled, an effecter that is and has no update pending, and a reading that
/// is normal.
const SENSOR_ENABLED: u8 = 0;

const EFFECTER_ENABLED: u8 = 1;

const NORMAL: u8 = 1;

/// The fan board: numeric effecters 1 and 2 set the fans' speeds in percent, numeric sensor 1 reads degrees Celsius.
#[derive(Debug, Drop)]
pub struct Board {
    /// The speeds of its fans in percent.
    speeds: [u8; FANS],
    degrees: u8,
    /// Up to when `degrees` is worked out.
    since: u64,
    /// The transfers since the last that failed.
    transfers: u8,
}

impl Model for Board {
    ghost use Rattle.fan_board.specs.Boards.{BoardState};

    ghost Value = { BoardState };

    ghost view = { λ b. record { speeds = b.speeds; degrees = b.degrees; since = b.since; transfers = b.transfers } };
}

impl Board {
    /// A board at the moment 0 whose fans stand still.
    pub fn new() -> Board
        ensures { result ≡ board_at_first }
    {
        Board {
            speeds: [0; FANS],
            degrees: FIRST_DEGREES,
            since: 0,
            transfers: 0,
        }
    }

    /// Performs a command at the moment `now`, and returns what the board answers. A fault of its bus is a
    /// completion code.
    pub fn perform(&mut self, now: Moment, command: &Command) -> Answer
        ensures answer { result ≡ board_answer self.old now command.now }
        ensures after { self.new ≡ board_after self.old now command.now }
        ensures to_the_command { IsAnswerTo (kind_of command.now) result }
    {
        self.pass_time(now.get());
        match self.try_command(command) {
            Ok(answer) => answer,
            Err(fault) => Answer::Refused(fault.code()),
        }
    }

    /// Responds to a request of PLDM type 63: the completion code, and the byte of data, if there is one.
    pub fn respond(&self, request: &RequestRef<'_>) -> (u8, Option<u8>)
        ensures code { result.0 ≡ (board_response self.now request.now).code }
        ensures rest { listed result.1 ≡ (board_response self.now request.now).rest }
    {
        if request.kind().command != GET_TRANSFERS {
            return (ERROR_UNSUPPORTED_PLDM_CMD, None);
        }
        if !request.data().is_empty() {
            return (ERROR_INVALID_LENGTH, None);
        }
        (SUCCESS, Some(self.transfers))
    }

    /// Lets the time pass up to a moment in milliseconds: the temperature rises where a fan stands still.
    fn pass_time(&mut self, now: u64)
        ensures { self.new ≡ board_at self.old now }
    {
        let seconds = now.saturating_sub(self.since) / SECOND;
        let still = still_fans(&self.speeds);
        let degrees = u64::from(self.degrees);
        let warmed = if still == 0 {
            degrees.saturating_sub(seconds).max(u64::from(COLDEST))
        } else {
            degrees
                .saturating_add(still * seconds)
                .min(u64::from(HOTTEST))
        };
        self.degrees = warmed as u8;
        self.since += seconds * SECOND;
    }

    /// What a command gives, where no time passes.
    fn try_command(&mut self, command: &Command) -> Result<Answer, BoardFault>
        ensures answer { answer_of result ≡ answer_now self.old command.now }
        ensures after { self.new ≡ left_now self.old command.now }
    {
        match command {
            Command::GetTid => Ok(Answer::GetTid { tid: TID }),
            Command::GetSensorReading { sensor, .. } => self.read_sensor(*sensor),
            Command::SetNumericEffecterValue { effecter, value } => self.set_speed(
                *effecter, *value,
            ),
            Command::GetNumericEffecterValue { effecter } => self.read_effecter(*effecter),
            _ => Err(BoardFault::UnknownCommand),
        }
    }

    /// Reads the thermometer.
    fn read_sensor(&mut self, sensor: u16) -> Result<Answer, BoardFault>
        ensures answer { (rearm : ℕ) → answer_of result ≡ answer_now self.old (Command.GetSensorReading sensor rearm) }
        ensures after { (rearm : ℕ) → self.new ≡ left_now self.old (Command.GetSensorReading sensor rearm) }
    {
        if sensor != THERMOMETER {
            return Err(BoardFault::UnknownId);
        }
        self.transfer()?;
        Ok(Answer::GetSensorReading {
            operational: SENSOR_ENABLED,
            sensor_event_message_enable: 0,
            present: NORMAL,
            previous: NORMAL,
            event: NORMAL,
            reading: byte_number(self.degrees),
        })
    }

    /// Reads the speed of a fan.
    fn read_effecter(&mut self, effecter: u16) -> Result<Answer, BoardFault>
        ensures answer { answer_of result ≡ answer_now self.old (Command.GetNumericEffecterValue effecter) }
        ensures after { self.new ≡ left_now self.old (Command.GetNumericEffecterValue effecter) }
    {
        let fan = fan_of(effecter)?;
        self.transfer()?;
        let speed = byte_number(self.speeds[fan]);
        match EffecterValues::new(speed, speed) {
            Some(values) => Ok(Answer::GetNumericEffecterValue {
                operational: EFFECTER_ENABLED,
                values,
            }),
            None => unreachable!(),
        }
    }

    /// Sets the speed of a fan in percent. A transfer that fails leaves it.
    fn set_speed(&mut self, effecter: u16, value: Number) -> Result<Answer, BoardFault>
        ensures answer { answer_of result ≡ answer_now self.old (Command.SetNumericEffecterValue effecter value) }
        ensures after { self.new ≡ left_now self.old (Command.SetNumericEffecterValue effecter value) }
    {
        let fan = fan_of(effecter)?;
        let percent = value.value();
        if percent < 0 || percent > FULL_SPEED {
            return Err(BoardFault::NoSpeed);
        }
        self.transfer()?;
        self.speeds[fan] = percent as u8;
        Ok(Answer::SetNumericEffecterValue)
    }

    /// Moves bytes over the bus. Each fourth transfer fails.
    fn transfer(&mut self) -> Result<(), BoardFault>
        ensures outcome { result ≡ (if is_bus_failing self.old then Err BoardFault.Bus else Ok tt) }
        ensures counted { self.new ≡ transferred self.old }
    {
        if self.transfers >= GOOD_TRANSFERS {
            self.transfers = 0;
            return Err(BoardFault::Bus);
        }
        self.transfers += 1;
        Ok(())
    }
}

/// How many fans stand still.
fn still_fans(speeds: &[u8; FANS]) -> u64
    ensures value { result ≡ count_by (λ speed. speed == 0) speeds.now }
    ensures few { result ≤ FANS }
{
    speeds.iter().filter(|speed| **speed == 0).count() as u64
}

/// The place of the fan with this effecter ID.
fn fan_of(effecter: u16) -> Result<usize, BoardFault>
    ensures fan { result ≡ fan_of effecter }
    ensures range { IfOk result (λ fan. fan < FANS) }
{
    let number = usize::from(effecter);
    if number < 1 || number > FANS {
        return Err(BoardFault::UnknownId);
    }
    Ok(number - 1)
}

/// The byte as a number of the data size uint8.
fn byte_number(value: u8) -> Number
    ensures { result ≡ byte_number value }
{
    match Number::new(Size::Uint8, value.into()) {
        Some(number) => number,
        None => unreachable!(),
    }
}
