//! The instance ID and the tag of a request, by its number (DSP0240, "PLDM message fields").

ghost use Rattle.std.specs.Prelude.{◌≡◌, ◌<◌};
ghost use Rattle.mctp_packet.specs.Ids.{IsTag};
ghost use Rattle.pldm_wire.specs.declared.assigned.TheConstants.{INSTANCE_IDS};
ghost use Rattle.pldm_requester.specs.Numbering.{id_of, tag_of};

use mctp_packet::{TAGS, Tag};
use pldm_wire::INSTANCE_IDS;

/// The instance ID of a request.
pub(crate) fn id_of(number: u64) -> u8
    ensures value { result ≡ id_of number }
    ensures range { result < INSTANCE_IDS }
{
    (number % u64::from(INSTANCE_IDS)) as u8
}

/// The tag of a request.
pub(crate) fn tag_of(number: u64) -> Tag
    ensures value { result ≡ tag_of number }
    ensures range { IsTag result }
{
    Tag::new((number % u64::from(TAGS)) as u8).unwrap()
}
