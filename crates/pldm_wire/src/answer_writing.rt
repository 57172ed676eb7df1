//! The message of a response to a command (DSP0240, "PLDM message fields").

ghost use Rattle.pldm_wire.specs.declared.assigned.TheConstants.{INSTANCE_IDS};
ghost use Rattle.std.specs.Prelude.{◌≡◌, ◌<◌, ◌≤◌, ◌++◌, length};
ghost use Rattle.arrayvec.specs.ArrayVec.{array_vec_len};
ghost use Rattle.pldm_wire.specs.Answers.{AnswerFields, HasCode, IsAnswer, IsAnswerTo, answer_data, answer_message, code_of};
ghost use Rattle.pldm_wire.specs.Messages.{IsResponse, response_message};

use crate::base::push_version_answer;
use crate::effecters::{push_effecter_states_answer, push_values_answer};
use crate::header::put_head;
use crate::pushes::{push_array, push_bytes};
use crate::repository::{push_part_answer, push_repository_counts, push_repository_times};
use crate::sensors::{push_reading_answer, push_sensor_states_answer};
use crate::{Answer, Kind, MAX_RESPONSE_DATA, RESPONSE_HEADER, SUCCESS};
use mctp_packet::Body;

/// The response of this instance ID, 0 to 31, that gives the answer to a command of this kind:
/// the header with its reserved bit 0, the completion code, the data (DSP0240, "PLDM message
/// fields"). A refusal has no data and answers any command; another answer has to be the one of
/// the kind's own command.
pub fn write_answer(id: u8, kind: Kind, answer: &Answer) -> Body
    requires id { id < INSTANCE_IDS }
    requires variant { IsAnswerTo kind answer.now }
    ensures spelled { result.items ≡ answer_message id kind answer.now }
    ensures response { IsResponse result.items id kind (code_of answer.now) (answer_data answer.now) }
    ensures fields { AnswerFields answer.now kind (code_of answer.now) (answer_data answer.now) }
    ensures range { IsAnswer answer.now }
{
    let mut body = Body::new();
    put_answer(&mut body, id, kind, answer);
    body
}

/// Puts what [`write_answer`] gives in the place of what `body` holds.
pub fn put_answer(body: &mut Body, id: u8, kind: Kind, answer: &Answer)
    requires id { id < INSTANCE_IDS }
    requires variant { IsAnswerTo kind answer.now }
    ensures spelled { body.new.items ≡ answer_message id kind answer.now }
    ensures response { IsResponse body.new.items id kind (code_of answer.now) (answer_data answer.now) }
    ensures fields { AnswerFields answer.now kind (code_of answer.now) (answer_data answer.now) }
    ensures range { IsAnswer answer.now }
{
    put_head(body, id, kind);
    body.push(code_in(answer));
    push_answer_data(body, answer);
}

/// Puts the response of this instance ID, 0 to 31, to a command of this kind, with this completion code and data, in
/// the place of what `body` holds: the header with its reserved bit 0, then both (DSP0240, "PLDM message fields").
pub fn put_response(body: &mut Body, id: u8, kind: Kind, code: u8, rest: &[u8])
    requires id { id < INSTANCE_IDS }
    requires few { length rest.now ≤ MAX_RESPONSE_DATA }
    ensures spelled { body.new.items ≡ response_message 0 id kind code rest.now }
    ensures response { IsResponse body.new.items id kind code rest.now }
{
    put_head(body, id, kind);
    body.push(code);
    push_bytes(body, rest);
}

/// The completion code that the answer is sent with.
fn code_in(answer: &Answer) -> u8
    ensures value { result ≡ code_of answer.now }
    ensures range { HasCode answer.now }
{
    match answer {
        Answer::Refused(code) => code.get(),
        _ => SUCCESS,
    }
}

/// Adds the answer's data to a response's header.
fn push_answer_data(body: &mut Body, answer: &Answer)
    requires room { array_vec_len body.old ≤ RESPONSE_HEADER }
    requires code { HasCode answer.now }
    ensures items { body.new.items ≡ body.old.items ++ answer_data answer.now }
    ensures range { IsAnswer answer.now }
{
    match answer {
        Answer::Refused(_)
        | Answer::SetTid
        | Answer::SetNumericEffecterValue
        | Answer::SetStateEffecterStates => {}
        Answer::GetTid { tid } => body.push(*tid),
        Answer::GetPldmVersion {
            next_data_transfer_handle,
            versions,
        } => push_version_answer(body, *next_data_transfer_handle, versions),
        Answer::GetPldmTypes { types } => push_array(body, types),
        Answer::GetPldmCommands { commands } => push_array(body, commands),
        Answer::GetSensorReading {
            operational,
            sensor_event_message_enable,
            present,
            previous,
            event,
            reading,
        } => push_reading_answer(
            body,
            *operational,
            *sensor_event_message_enable,
            *present,
            *previous,
            *event,
            *reading,
        ),
        Answer::GetStateSensorReadings { fields } => push_sensor_states_answer(body, fields),
        Answer::GetNumericEffecterValue {
            operational,
            values,
        } => push_values_answer(body, *operational, *values),
        Answer::GetStateEffecterStates { fields } => push_effecter_states_answer(body, fields),
        Answer::GetPdrRepositoryInfo {
            state,
            update_time,
            oem_update_time,
            record_count,
            repository_size,
            largest_record_size,
            timeout,
        } => {
            push_repository_times(body, *state, update_time, oem_update_time);
            push_repository_counts(
                body,
                *record_count,
                *repository_size,
                *largest_record_size,
                *timeout,
            );
        }
        Answer::GetPdr {
            next_record_handle,
            next_data_transfer_handle,
            part,
        } => push_part_answer(body, *next_record_handle, *next_data_transfer_handle, part),
    }
}
