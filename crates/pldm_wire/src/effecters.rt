//! The data of the commands of effecters (DSP0248) and of their answers, read and written.

ghost use Rattle.pldm_wire.specs.CommandReading.{request_in};
ghost use Rattle.pldm_wire.specs.AnswerReading.{answer_in};
ghost use Rattle.pldm_wire.specs.CommandTable.{get_numeric_effecter_value, get_state_effecter_states, set_numeric_effecter_value, set_state_effecter_states};
ghost use Rattle.std.specs.Prelude.{◌≡◌, ◌≤◌, ◌∷◌, ◌++◌, length};
ghost use Rattle.std.specs.List.{flat_map};
ghost use Rattle.arrayvec.specs.ArrayVec.{array_vec_len};
ghost use Rattle.byteorder.specs.Endian.{little_bytes};
ghost use Rattle.pldm_wire.specs.Sizes.{size_code};
ghost use Rattle.pldm_wire.specs.Numbers.{IsNumber, number_bytes};
ghost use Rattle.pldm_wire.specs.States.{IsComposite, effecter_bytes, set_bytes};
ghost use Rattle.pldm_wire.specs.EffecterNumbers.{IsPair};

use crate::places::u16_in;
use crate::pushes::{push_number, push_u16};
use crate::{
    ALL_FIELDS_FORM, Answer, AnswerFault, Code, Command, EffecterStateField, EffecterValues,
    MAX_STATES, Number, REQUEST_HEADER, RESPONSE_HEADER, SetStateField, Size, StateFields,
};
use mctp_packet::Body;

/// SetNumericEffecterValue: effecter, data size, number.
pub(crate) fn set_numeric_effecter_value_in(bytes: &[u8]) -> Result<Command, Code>
    ensures { result ≡ request_in set_numeric_effecter_value bytes.now }
{
    let [_, _, code, _, ..] = bytes else {
        return Err(Code::ERROR_INVALID_LENGTH);
    };
    let Some(size) = Size::from_code(*code) else {
        return Err(Code::ERROR_INVALID_DATA);
    };
    if bytes.len() != 3 + size.width() {
        return Err(Code::ERROR_INVALID_LENGTH);
    }
    Ok(Command::SetNumericEffecterValue {
        effecter: u16_in(bytes, 0),
        value: Number::read(size, bytes, 3),
    })
}

/// GetNumericEffecterValue: effecter.
pub(crate) fn get_numeric_effecter_value_in(bytes: &[u8]) -> Result<Command, Code>
    ensures { result ≡ request_in get_numeric_effecter_value bytes.now }
{
    match bytes {
        [_, _] => Ok(Command::GetNumericEffecterValue {
            effecter: u16_in(bytes, 0),
        }),
        _ => Err(Code::ERROR_INVALID_LENGTH),
    }
}

/// SetStateEffecterStates: effecter, count, as many fields. The data may also have the length of
/// all eight fields; those past the count are then ignored.
#[tactic(auto, using(crate::proofs::FieldLists::field_counts))]
pub(crate) fn set_state_effecter_states_in(bytes: &[u8]) -> Result<Command, Code>
    ensures { result ≡ request_in set_state_effecter_states bytes.now }
{
    let [_, _, count, ..] = bytes else {
        return Err(Code::ERROR_INVALID_LENGTH);
    };
    let count = usize::from(*count);
    if count == 0 || count > MAX_STATES {
        return Err(Code::ERROR_INVALID_DATA);
    }
    if bytes.len() != 3 + 2 * count && bytes.len() != ALL_FIELDS_FORM {
        return Err(Code::ERROR_INVALID_LENGTH);
    }
    let (_, fields) = bytes.split_at(3);
    let (fields, _) = fields.split_at(2 * count);
    Ok(Command::SetStateEffecterStates {
        effecter: u16_in(bytes, 0),
        fields: StateFields::<SetStateField>::read(fields),
    })
}

/// GetStateEffecterStates: effecter.
pub(crate) fn get_state_effecter_states_in(bytes: &[u8]) -> Result<Command, Code>
    ensures { result ≡ request_in get_state_effecter_states bytes.now }
{
    match bytes {
        [_, _] => Ok(Command::GetStateEffecterStates {
            effecter: u16_in(bytes, 0),
        }),
        _ => Err(Code::ERROR_INVALID_LENGTH),
    }
}

/// SetNumericEffecterValue's data after a request's header.
pub(crate) fn push_set_numeric_effecter_value(body: &mut Body, effecter: u16, value: Number)
    requires { array_vec_len body.old ≤ REQUEST_HEADER }
    ensures items { body.new.items ≡ body.old.items
        ++ (little_bytes 2 effecter ++ size_code value.size ∷ number_bytes value) }
    ensures range { IsNumber value }
{
    push_u16(body, effecter);
    body.push(value.size().code());
    push_number(body, value);
}

/// SetStateEffecterStates' data after a request's header: as many fields as there are.
pub(crate) fn push_set_state_effecter_states(
    body: &mut Body,
    effecter: u16,
    fields: &StateFields<SetStateField>,
)
    requires { array_vec_len body.old ≤ REQUEST_HEADER }
    ensures range { IsComposite fields.now }
    ensures items { body.new.items ≡ body.old.items
        ++ (little_bytes 2 effecter ++ length fields.now ∷ flat_map set_bytes fields.now) }
{
    push_u16(body, effecter);
    let fields = fields.as_slice();
    body.push(fields.len() as u8);
    for field in fields {
        body.push(field.set_request);
        body.push(field.state);
    }
}

/// GetNumericEffecterValue's answer: data size, operational state, pending number, present number.
// Not inlined, so that the answer is written where it is wanted and not copied there.
#[inline(never)]
pub(crate) fn values_answer_in(bytes: &[u8]) -> Result<Answer, AnswerFault>
    ensures { result ≡ answer_in get_numeric_effecter_value bytes.now }
{
    let [code, operational, ..] = bytes else {
        return Err(AnswerFault::Length);
    };
    let Some(size) = Size::from_code(*code) else {
        return Err(AnswerFault::Value);
    };
    let width = size.width();
    if bytes.len() != 2 + 2 * width {
        return Err(AnswerFault::Length);
    }
    let pending = Number::read(size, bytes, 2);
    let present = Number::read(size, bytes, 2 + width);
    Ok(Answer::GetNumericEffecterValue {
        operational: *operational,
        values: EffecterValues::of(pending, present),
    })
}

/// GetStateEffecterStates' answer: count, as many fields.
// Not inlined, so that the answer is written where it is wanted and not copied there.
#[inline(never)]
#[tactic(auto, using(crate::proofs::FieldLists::field_counts))]
pub(crate) fn effecter_states_answer_in(bytes: &[u8]) -> Result<Answer, AnswerFault>
    ensures { result ≡ answer_in get_state_effecter_states bytes.now }
{
    let [count, ..] = bytes else {
        return Err(AnswerFault::Length);
    };
    let count = usize::from(*count);
    if count == 0 || count > MAX_STATES {
        return Err(AnswerFault::Value);
    }
    if bytes.len() != 1 + 3 * count {
        return Err(AnswerFault::Length);
    }
    let (_, fields) = bytes.split_at(1);
    Ok(Answer::GetStateEffecterStates {
        fields: StateFields::<EffecterStateField>::read(fields),
    })
}

/// The data of GetNumericEffecterValue's answer after a response's header.
pub(crate) fn push_values_answer(body: &mut Body, operational: u8, values: EffecterValues)
    requires { array_vec_len body.old ≤ RESPONSE_HEADER }
    ensures items { body.new.items ≡ body.old.items
        ++ (size_code values.pending.size ∷ operational
        ∷ number_bytes values.pending ++ number_bytes values.present) }
    ensures range { IsPair values }
{
    let pending = values.pending();
    body.push(pending.size().code());
    body.push(operational);
    push_number(body, pending);
    push_number(body, values.present());
}

/// The data of GetStateEffecterStates' answer after a response's header.
pub(crate) fn push_effecter_states_answer(body: &mut Body, fields: &StateFields<EffecterStateField>)
    requires { array_vec_len body.old ≤ RESPONSE_HEADER }
    ensures items { body.new.items ≡ body.old.items
        ++ (length fields.now ∷ flat_map effecter_bytes fields.now) }
    ensures range { IsComposite fields.now }
{
    let fields = fields.as_slice();
    body.push(fields.len() as u8);
    for field in fields {
        body.push(field.operational);
        body.push(field.pending);
        body.push(field.present);
    }
}
