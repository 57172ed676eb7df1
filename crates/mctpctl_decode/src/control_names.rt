//! The names of commands, fields and completion codes of control messages, in the words of DSP0236.

ghost use Rattle.std.specs.Prelude.{◌≡◌, option_map};
ghost use Rattle.mctpctl_decode.specs.ControlNames.{assignment_name, code_name, command_name, eid_kind_name, endpoint_name, general_code_name, operation_name, own_code_name, version_code_name};

use crate::shared_codes::shared_code_name;
use mctp_control::{
    Assignment, EidKind, EidOperation, EndpointKind, GET_ENDPOINT_ID, GET_ENDPOINT_UUID,
    GET_MESSAGE_TYPE_SUPPORT, GET_VERSION_SUPPORT, SET_ENDPOINT_ID,
};

/// The name of the command of a number, of those that a simple endpoint has (DSP0236, "MCTP control command summary").
pub fn command_name(number: u8) -> Option<&'static str>
    ensures { option_map (λ name. name.now) result ≡ command_name number }
{
    match number {
        SET_ENDPOINT_ID => Some("SetEndpointID"),
        GET_ENDPOINT_ID => Some("GetEndpointID"),
        GET_ENDPOINT_UUID => Some("GetEndpointUUID"),
        GET_VERSION_SUPPORT => Some("GetMCTPVersionSupport"),
        GET_MESSAGE_TYPE_SUPPORT => Some("GetMessageTypeSupport"),
        _ => None,
    }
}

/// The name of a completion code of the command of a number: one of the generic codes, or one of the command's own,
/// from 0x80 on (DSP0236, "MCTP control message completion codes" and the tables of its commands).
#[tactic(auto, unfolding(crate::specs::ControlNames::code_name))]
pub fn code_name(number: u8, code: u8) -> Option<&'static str>
    ensures { option_map (λ name. name.now) result ≡ code_name number code }
{
    if code < 0x80 {
        general_code_name(code)
    } else {
        own_code_name(number, code)
    }
}

/// The name of a generic code.
fn general_code_name(code: u8) -> Option<&'static str>
    ensures { option_map (λ name. name.now) result ≡ general_code_name code }
{
    match code {
        5 => Some("ERROR_UNSUPPORTED_CMD"),
        _ => shared_code_name(code),
    }
}

/// The name of a code of a command's own.
fn own_code_name(number: u8, code: u8) -> Option<&'static str>
    ensures { option_map (λ name. name.now) result ≡ own_code_name number code }
{
    match number {
        GET_VERSION_SUPPORT => version_code_name(code),
        _ => None,
    }
}

/// Get MCTP Version Support (DSP0236, "Get MCTP Version Support").
fn version_code_name(code: u8) -> Option<&'static str>
    ensures { option_map (λ name. name.now) result ≡ version_code_name code }
{
    match code {
        0x80 => Some("MESSAGE_TYPE_NOT_SUPPORTED"),
        _ => None,
    }
}

/// The name of what is to become of an endpoint ID (DSP0236, "Set Endpoint ID", operation).
pub fn operation_name(operation: EidOperation) -> &'static str
    ensures { result.now ≡ operation_name operation }
{
    match operation {
        EidOperation::Set => "set",
        EidOperation::Force => "force",
        EidOperation::Reset => "reset",
        EidOperation::SetDiscovered => "setDiscoveredFlag",
    }
}

/// The name of what has become of an endpoint ID (DSP0236, "Set Endpoint ID", EID assignment status).
pub fn assignment_name(assignment: Assignment) -> &'static str
    ensures { result.now ≡ assignment_name assignment }
{
    match assignment {
        Assignment::Accepted => "accepted",
        Assignment::Rejected => "rejected",
    }
}

/// The name of what an endpoint is (DSP0236, "Get Endpoint ID", endpoint type).
pub fn endpoint_name(endpoint: EndpointKind) -> &'static str
    ensures { result.now ≡ endpoint_name endpoint }
{
    match endpoint {
        EndpointKind::Simple => "simple",
        EndpointKind::BusOwner => "busOwnerOrBridge",
    }
}

/// The name of where an endpoint ID is from, and of whether the present one is the static one (DSP0236, "Get Endpoint
/// ID", endpoint ID type).
pub fn eid_kind_name(kind: EidKind) -> &'static str
    ensures { result.now ≡ eid_kind_name kind }
{
    match kind {
        EidKind::Dynamic => "dynamic",
        EidKind::Static => "static",
        EidKind::StaticNow => "staticSame",
        EidKind::StaticNotNow => "staticOther",
    }
}
