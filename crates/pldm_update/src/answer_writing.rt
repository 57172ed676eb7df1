//! The data of an answer to a command of firmware update.

ghost use Rattle.std.specs.Prelude.{◌≡◌, ℕ};
ghost use Rattle.pldm_update.specs.Answers.{IsAnswerTo, IsUpdateAnswer, UpdateAnswerFields, answer_data, code_of};

use crate::field::{Field, data_of};
use crate::{UpdateAnswer, UpdateData};

/// The data of this answer, which follows a response's header and [`UpdateAnswer::code`]: its fields one after another,
/// numbers with their lowest byte first; none of a refusal (DSP0267). `pldm_wire::put_response` makes a message of
/// both.
pub fn update_answer_data(answer: &UpdateAnswer) -> UpdateData
    ensures spelled { result.items ≡ answer_data answer.now }
    ensures fields { (number : ℕ) → IsAnswerTo number answer.now
        → UpdateAnswerFields answer.now number (code_of answer.now) result.items }
    ensures range { IsUpdateAnswer answer.now }
{
    spelled(answer)
}

/// The same, field by field.
fn spelled(answer: &UpdateAnswer) -> UpdateData
    ensures items { result.items ≡ answer_data answer.now }
    ensures range { IsUpdateAnswer answer.now }
{
    match answer {
        UpdateAnswer::Refused(code) => {
            let _range = code.get(); // for the proof: not SUCCESS
            UpdateData::new()
        }
        UpdateAnswer::TransferComplete
        | UpdateAnswer::VerifyComplete
        | UpdateAnswer::ApplyComplete
        | UpdateAnswer::CancelUpdateComponent => UpdateData::new(),
        UpdateAnswer::QueryDeviceIdentifiers { identifiers } => {
            data_of(&[Field::Bytes(identifiers.as_slice())])
        }
        UpdateAnswer::GetFirmwareParameters { parameters } => {
            data_of(&[Field::Bytes(parameters.as_slice())])
        }
        UpdateAnswer::RequestUpdate {
            meta_data_bytes,
            sends_package_data,
        } => data_of(&[Field::U16(*meta_data_bytes), Field::U8(*sends_package_data)]),
        UpdateAnswer::PassComponentTable {
            response,
            response_code,
        } => data_of(&[Field::U8(*response), Field::U8(*response_code)]),
        UpdateAnswer::UpdateComponent {
            compatibility,
            compatibility_code,
            enabled_flags,
            seconds_before_first_piece,
        } => data_of(&[
            Field::U8(*compatibility),
            Field::U8(*compatibility_code),
            Field::U32(*enabled_flags),
            Field::U16(*seconds_before_first_piece),
        ]),
        UpdateAnswer::RequestFirmwareData { piece } => data_of(&[Field::Bytes(piece.as_slice())]),
        UpdateAnswer::ActivateFirmware { estimated_seconds } => {
            data_of(&[Field::U16(*estimated_seconds)])
        }
        UpdateAnswer::GetStatus {
            state,
            previous,
            auxiliary_state,
            auxiliary_status,
            progress,
            reason,
            enabled_flags,
        } => data_of(&[
            Field::U8(state.number()),
            Field::U8(previous.number()),
            Field::U8(*auxiliary_state),
            Field::U8(*auxiliary_status),
            Field::U8(*progress),
            Field::U8(*reason),
            Field::U32(*enabled_flags),
        ]),
        UpdateAnswer::CancelUpdate {
            not_functioning,
            components,
        } => data_of(&[Field::U8(*not_functioning), Field::U64(*components)]),
    }
}
