//! The message of an answer to a control command (DSP0236, "MCTP control message format").

ghost use Rattle.std.specs.Prelude.{◌≡◌, ◌<◌, ◌++◌, ◌≤◌, ◌+◌, length};
ghost use Rattle.mctp_control.specs.Answers.{answer_data, code_of};
ghost use Rattle.mctp_control.specs.Written.{answer_message};
ghost use Rattle.mctp_control.specs.declared.assigned.TheConstants.{INSTANCE_IDS, MAX_DATA};
ghost use Rattle.arrayvec.specs.ArrayVec.{array_vec_len};

use crate::{Answer, CONTROL, SUCCESS, VERSION_BYTES};
use arrayvec::ArrayVec;
use mctp_packet::BASELINE_UNIT;

/// The message of an answer to a command of this number, with this instance ID, 0 to 31: at most 64 bytes, so one
/// packet has it whole (DSP0236, "MCTP control message format"). Reserved bits are 0.
pub fn write_answer(id: u8, command: u8, answer: &Answer) -> ArrayVec<u8, BASELINE_UNIT>
    requires { id < INSTANCE_IDS }
    ensures { result.items ≡ answer_message id command answer.now }
{
    let mut message = ArrayVec::new();
    message.push(CONTROL);
    message.push(id);
    message.push(command);
    message.push(code_of(answer));
    push_data(&mut message, answer);
    message
}

/// The completion code of an answer.
fn code_of(answer: &Answer) -> u8
    ensures { result ≡ code_of answer.now }
{
    match answer {
        Answer::Refused(code) => code.get(),
        _ => SUCCESS,
    }
}

/// Adds the data of an answer.
fn push_data(message: &mut ArrayVec<u8, BASELINE_UNIT>, answer: &Answer)
    requires { array_vec_len message.old + MAX_DATA ≤ 64 }
    ensures { message.new.items ≡ message.old.items ++ answer_data answer.now }
{
    match answer {
        Answer::Refused(_) => {}
        Answer::EndpointIdSet { assignment, eid } => {
            message.push(assignment.code() << 4);
            message.push(*eid);
            message.push(0);
        }
        Answer::EndpointId {
            eid,
            endpoint,
            kind,
            medium,
        } => {
            message.push(*eid);
            message.push((endpoint.code() << 4) + kind.code());
            message.push(*medium);
        }
        Answer::EndpointUuid(uuid) => push_bytes(message, uuid),
        Answer::VersionSupport(versions) => {
            let bytes = versions.as_slice();
            message.push((bytes.len() / VERSION_BYTES) as u8);
            push_bytes(message, bytes);
        }
        Answer::MessageTypeSupport(types) => {
            let bytes = types.as_slice();
            message.push(bytes.len() as u8);
            push_bytes(message, bytes);
        }
    }
}

/// Adds these bytes.
fn push_bytes(message: &mut ArrayVec<u8, BASELINE_UNIT>, bytes: &[u8])
    requires { array_vec_len message.old + length bytes.now ≤ 64 }
    ensures { message.new.items ≡ message.old.items ++ bytes.now }
{
    let _ = message.try_extend_from_slice(bytes); // they fit
}
