//! The PLDM types of a terminus, one after another (DSP0240, "GetPLDMTypes command").

ghost use Rattle.std.specs.Prelude.{◌≡◌};
ghost use Rattle.pldm_discovery.specs.Types.{has_type, next_type};

use crate::limits::MAX_TYPES;

/// Whether this type is among those of GetPLDMTypes' answer: type t is bit t mod 8 of byte t / 8 (DSP0240,
/// "GetPLDMTypes command").
pub(crate) fn has_type(types: &[u8], pldm_type: u8) -> bool
    ensures { result ≡ has_type types.now pldm_type }
{
    match types.get(usize::from(pldm_type / 8)) {
        Some(byte) => byte >> (pldm_type % 8) & 1 == 1,
        None => false,
    }
}

/// The least type among these that is not below another number.
#[tactic(auto, unfolding(crate::specs::Types::next_type))]
pub(crate) fn next_type(types: &[u8], least: u16) -> Option<u8>
    ensures { result ≡ next_type types.now least }
{
    (0..MAX_TYPES).find(|pldm_type| least <= u16::from(*pldm_type) && has_type(types, *pldm_type))
}
