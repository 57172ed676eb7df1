//! The answer in a response to a control command, read from its data (DSP0236).

ghost use Rattle.std.specs.Prelude.{◌≡◌, Some, IfSome};
ghost use Rattle.mctp_control.specs.AnswerReading.{answer_of, endpoint_id_of, set_of, success_of, types_of, uuid_of, versions_of};
ghost use Rattle.mctp_control.specs.Answers.{AnswerFields};
ghost use Rattle.mctp_control.specs.declared.answer.Answer.{Answer as AnswerValue};

use crate::{
    Answer, Assignment, CompletionCode, EidKind, EndpointKind, GET_ENDPOINT_ID, GET_ENDPOINT_UUID,
    GET_MESSAGE_TYPE_SUPPORT, GET_VERSION_SUPPORT, MessageTypes, ResponseRef, SET_ENDPOINT_ID,
    VERSION_BYTES, Versions,
};

/// The answer that this response is, if it is one to its command: the bytes after a completion code other than SUCCESS
/// are not looked at. Reserved bits may be any; a Set Endpoint ID whose answer says that there is a pool of endpoint
/// IDs has none here (DSP0236, the tables of the commands).
pub fn read_answer(response: &ResponseRef<'_>) -> Option<Answer>
    ensures exact { result ≡ answer_of response.now.command response.now.code response.now.rest }
    ensures found { IfSome result (λ a. AnswerFields a response.now.command response.now.code response.now.rest) }
    ensures only { (a : AnswerValue)
        → AnswerFields a response.now.command response.now.code response.now.rest → result ≡ Some a }
{
    answer_at(response.command(), response.code(), response.data())
}

/// As `read_answer`, of the fields of a response.
fn answer_at(command: u8, code: u8, bytes: &[u8]) -> Option<Answer>
    ensures exact { result ≡ answer_of command code bytes.now }
    ensures found { IfSome result (λ a. AnswerFields a command code bytes.now) }
    ensures only { (a : AnswerValue) → AnswerFields a command code bytes.now → result ≡ Some a }
{
    answer_in(command, code, bytes)
}

/// As `answer_at`, in the order of the definition.
#[tactic(auto, unfolding(crate::specs::AnswerReading::answer_of))]
fn answer_in(command: u8, code: u8, bytes: &[u8]) -> Option<Answer>
    ensures { result ≡ answer_of command code bytes.now }
{
    match CompletionCode::new(code) {
        Some(code) => Some(Answer::Refused(code)),
        None => success_in(command, bytes),
    }
}

/// The answer to a command that was carried out.
fn success_in(command: u8, bytes: &[u8]) -> Option<Answer>
    ensures { result ≡ success_of command bytes.now }
{
    match command {
        SET_ENDPOINT_ID => set_in(bytes),
        GET_ENDPOINT_ID => endpoint_id_in(bytes),
        GET_ENDPOINT_UUID => uuid_in(bytes),
        GET_VERSION_SUPPORT => versions_in(bytes),
        GET_MESSAGE_TYPE_SUPPORT => types_in(bytes),
        _ => None,
    }
}

/// The status, the endpoint ID, and no pool.
fn set_in(bytes: &[u8]) -> Option<Answer>
    ensures { result ≡ set_of bytes.now }
{
    let [status, eid, pool] = bytes else {
        return None;
    };
    if *status & 0x03 != 0 || *pool != 0 {
        return None;
    }
    let assignment = Assignment::of(*status)?;
    Some(Answer::EndpointIdSet {
        assignment,
        eid: *eid,
    })
}

/// The endpoint ID, the types, and what the medium says.
fn endpoint_id_in(bytes: &[u8]) -> Option<Answer>
    ensures { result ≡ endpoint_id_of bytes.now }
{
    let [eid, types, medium] = bytes else {
        return None;
    };
    let endpoint = EndpointKind::of(*types)?;
    Some(Answer::EndpointId {
        eid: *eid,
        endpoint,
        kind: EidKind::of(*types),
        medium: *medium,
    })
}

/// The UUID.
fn uuid_in(bytes: &[u8]) -> Option<Answer>
    ensures { result ≡ uuid_of bytes.now }
{
    match bytes.try_into() {
        Ok(uuid) => Some(Answer::EndpointUuid(uuid)),
        Err(_) => None,
    }
}

/// How many versions there are, and then they.
fn versions_in(bytes: &[u8]) -> Option<Answer>
    ensures { result ≡ versions_of bytes.now }
{
    let [count, entries @ ..] = bytes else {
        return None;
    };
    let versions = Versions::new(entries)?;
    if usize::from(*count) != entries.len() / VERSION_BYTES {
        return None;
    }
    Some(Answer::VersionSupport(versions))
}

/// How many types there are, and then they.
fn types_in(bytes: &[u8]) -> Option<Answer>
    ensures { result ≡ types_of bytes.now }
{
    let [count, types @ ..] = bytes else {
        return None;
    };
    if usize::from(*count) != types.len() {
        return None;
    }
    Some(Answer::MessageTypeSupport(MessageTypes::new(types)?))
}
