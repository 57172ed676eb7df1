//! An answer read from a response, for the command that it answers.

ghost use Rattle.pldm_wire.specs.AnswerReading.{answer_by};
ghost use Rattle.pldm_wire.specs.CommandTable.{base_rows, platform_rows};
ghost use Rattle.std.specs.Prelude.{◌≡◌, ◌<◌, Ok, IfOk};
ghost use Rattle.pldm_wire.specs.AnswerFaults.{number_of_answer_fault};
ghost use Rattle.pldm_wire.specs.Commands.{kind_of};
ghost use Rattle.pldm_wire.specs.AnswerReading.{AnswersCommand, AnswersKind, answer_of, success_of};
ghost use Rattle.pldm_wire.specs.declared.answer.Answer.{Answer as AnswerValue};

use crate::base::{
    commands_answer_in, no_data_in, tid_answer_in, types_answer_in, version_answer_in,
};
use crate::effecters::{effecter_states_answer_in, values_answer_in};
use crate::repository::{part_answer_in, repository_answer_in};
use crate::sensors::{reading_answer_in, sensor_states_answer_in};
use crate::{
    Answer, BASE, Code, Command, GET_NUMERIC_EFFECTER_VALUE, GET_PDR, GET_PDR_REPOSITORY_INFO,
    GET_PLDM_COMMANDS, GET_PLDM_TYPES, GET_PLDM_VERSION, GET_SENSOR_READING,
    GET_STATE_EFFECTER_STATES, GET_STATE_SENSOR_READINGS, GET_TID, Kind, PLATFORM, ResponseRef,
    SET_NUMERIC_EFFECTER_VALUE, SET_STATE_EFFECTER_STATES, SET_TID,
};
use thiserror::Error;

/// Why a response is no answer to a command.
#[derive(Clone, Copy, Debug, PartialEq, Eq, Error)]
pub enum AnswerFault {
    /// It is of another PLDM type or command.
    #[error("the response is to another command")]
    OtherCommand = 1,
    /// Its data is shorter or longer than the answer's.
    #[error("the response has the wrong length")]
    Length = 2,
    /// A data size, a count or a flag of it has no such value.
    #[error("the response has a field with a wrong value")]
    Value = 3,
}

impl AnswerFault {
    /// The fault's number in this profile's list.
    pub fn number(self) -> u8
        ensures { result ≡ number_of_answer_fault self }
    {
        self as u8
    }
}

/// The answer that this response is to the command: OtherCommand for another PLDM type or command; else a completion
/// code other than 0 is a refusal, whatever follows it; else Length for fewer bytes than the answer's fixed fields,
/// Value for a data size, a count or a flag that is not valid, and Length for another length than these fix (DSP0240,
/// DSP0248; the order is this profile's own).
pub fn read_answer(command: &Command, response: &ResponseRef<'_>) -> Result<Answer, AnswerFault>
    ensures exact { result
        ≡ answer_of (kind_of command.now) response.now.kind response.now.code response.now.rest }
    ensures found { IfOk result
        (λ a. AnswersCommand command.now a response.now.kind response.now.code response.now.rest) }
    ensures only { (a : AnswerValue)
        → AnswersCommand command.now a response.now.kind response.now.code response.now.rest
        → result ≡ Ok a }
{
    read_answer_of(command.kind(), response)
}

/// The answer that this response is to a command of this type and number, whatever the command's fields were: what
/// [`read_answer`] returns for it.
pub fn read_answer_of(kind: Kind, response: &ResponseRef<'_>) -> Result<Answer, AnswerFault>
    ensures exact { result ≡ answer_of kind response.now.kind response.now.code response.now.rest }
    ensures found { IfOk result
        (λ a. AnswersKind kind a response.now.kind response.now.code response.now.rest) }
    ensures only { (a : AnswerValue)
        → AnswersKind kind a response.now.kind response.now.code response.now.rest
        → result ≡ Ok a }
{
    answer_in(kind, response)
}

/// As `read_answer_of`, check by check.
fn answer_in(kind: Kind, response: &ResponseRef<'_>) -> Result<Answer, AnswerFault>
    ensures exact { result ≡ answer_of kind response.now.kind response.now.code response.now.rest }
    ensures code { response.now.code < 256 }
{
    let code = response.code();
    if response.kind() != kind {
        return Err(AnswerFault::OtherCommand);
    }
    match Code::new(code) {
        Some(code) => Ok(Answer::Refused(code)),
        None => success_in(kind, response.data()),
    }
}

/// The answer that this data is, after SUCCESS.
#[tactic(auto, unfolding(crate::specs::AnswerReading::success_of))]
fn success_in(kind: Kind, bytes: &[u8]) -> Result<Answer, AnswerFault>
    ensures { result ≡ success_of kind bytes.now }
{
    match kind.pldm_type {
        BASE => base_answer_in(kind.command, bytes),
        PLATFORM => platform_answer_in(kind.command, bytes),
        _ => Err(AnswerFault::OtherCommand),
    }
}

/// The answer of messaging control and discovery (DSP0240) that this data is.
fn base_answer_in(command: u8, bytes: &[u8]) -> Result<Answer, AnswerFault>
    ensures { result ≡ answer_by base_rows command bytes.now }
{
    match command {
        SET_TID => no_data_in(Answer::SetTid, bytes),
        GET_TID => tid_answer_in(bytes),
        GET_PLDM_VERSION => version_answer_in(bytes),
        GET_PLDM_TYPES => types_answer_in(bytes),
        GET_PLDM_COMMANDS => commands_answer_in(bytes),
        _ => Err(AnswerFault::OtherCommand),
    }
}

/// The answer of platform monitoring and control (DSP0248) that this data is.
fn platform_answer_in(command: u8, bytes: &[u8]) -> Result<Answer, AnswerFault>
    ensures { result ≡ answer_by platform_rows command bytes.now }
{
    match command {
        GET_SENSOR_READING => reading_answer_in(bytes),
        GET_STATE_SENSOR_READINGS => sensor_states_answer_in(bytes),
        SET_NUMERIC_EFFECTER_VALUE => no_data_in(Answer::SetNumericEffecterValue, bytes),
        GET_NUMERIC_EFFECTER_VALUE => values_answer_in(bytes),
        SET_STATE_EFFECTER_STATES => no_data_in(Answer::SetStateEffecterStates, bytes),
        GET_STATE_EFFECTER_STATES => effecter_states_answer_in(bytes),
        GET_PDR_REPOSITORY_INFO => repository_answer_in(bytes),
        GET_PDR => part_answer_in(bytes),
        _ => Err(AnswerFault::OtherCommand),
    }
}
