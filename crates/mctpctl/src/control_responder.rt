//! The control responder of the device that `mctpctl serve` serves, as its description says.

ghost use Rattle.std.specs.Prelude.{◌≡◌};
ghost use Rattle.mctpctl.specs.ControlResponders.{default_uuid, eid_at_first, responder_of};

use mctp_control::{ControlResponder, KeptAssignments, UUID_BYTES, VERSION_BYTES};
use mctp_packet::{Eid, Keep};
use pldm_device::ControlTable;

/// The UUID of the endpoint ID 0, which is none: version 8 (RFC 9562, "UUID Version 8").
const UUID: [u8; UUID_BYTES] = [
    0x4e, 0x65, 0x65, 0x64, 0x6c, 0x65, 0x8f, 0x61, 0x80, 0x74, 0, 0, 0, 0, 0, 0,
];

/// DSP0236 1.3.1, of the base specification and of control messages.
const BASE_VERSION: [u8; VERSION_BYTES] = [0xf1, 0xf3, 0xf1, 0x00];

/// DSP0241 1.0.0.
const PLDM_VERSION: [u8; VERSION_BYTES] = [0xf1, 0xf0, 0xf0, 0x00];

/// The endpoint ID that the described device has at first: none where a bus owner is to assign one.
pub fn eid_at_first(eid: Eid, table: &ControlTable) -> Option<Eid>
    ensures { result ≡ eid_at_first eid table.now.assigned }
{
    if table.assigned { None } else { Some(eid) }
}

/// What control messages find at the described device: what stands in the table of the description, and a default for
/// what does not. Its static endpoint ID is that of the description. Where a bus owner is to assign one, it has none at
/// first and takes any; else a bus owner cannot change it. Copies of an assignment are known for the keeping time.
pub fn control_responder(eid: Eid, keep: Keep, table: &ControlTable) -> ControlResponder
    ensures { result ≡ responder_of eid keep table.now }
{
    ControlResponder {
        eid: eid_at_first(eid, table),
        static_eid: Some(eid),
        takes_eid: table.assigned,
        keep,
        uuid: table.uuid.unwrap_or(default_uuid(eid)),
        base_version: table.base_version.unwrap_or(BASE_VERSION),
        control_version: table.control_version.unwrap_or(BASE_VERSION),
        pldm_version: table.pldm_version.unwrap_or(PLDM_VERSION),
        kept: KeptAssignments::new(),
    }
}

/// The UUID where the description has none. Its last byte is the endpoint ID.
fn default_uuid(eid: Eid) -> [u8; UUID_BYTES]
    ensures { result ≡ default_uuid eid }
{
    let mut uuid = UUID;
    uuid[UUID_BYTES - 1] = eid.get();
    uuid
}
