//! Packets that the responder of PLDM dropped, and the control responder answers (DSP0236, "MCTP control protocol").

ghost use Rattle.std.specs.Prelude.{◌≡◌, ◌<◌, IfSome, length, option_map};
ghost use Rattle.mctp_control.specs.Dropped.{control_left, control_reply, is_from_null, is_handed_on, is_to_null};

use crate::{ControlPacket, ControlResponder};
use mctp_packet::{Moment, NULL_EID, Reason};

impl ControlResponder {
    /// Takes the bytes of a packet that came at the moment `now`, and that the responder of PLDM with the same endpoint
    /// ID, or with none as this one, dropped for this reason. Returns the packet that answers it, as
    /// [`ControlResponder::receive`] does. Only a packet that was dropped as `NotPldm`, as `UnknownDestination` where
    /// it was sent to the null endpoint ID, or as `BadSource` where it was sent from the null one, is looked at; every
    /// other gets `None`, and nothing changes. No other reason is that of a control request to this endpoint
    /// ([`crate::laws::drops_are_answered_as_received`]).
    #[tactic(auto, using(crate::proofs::DroppedReplies::replies_have_bytes))]
    pub fn receive_dropped(
        &mut self,
        now: Moment,
        reason: Reason,
        packet: &[u8],
    ) -> Option<ControlPacket>
        ensures reply { option_map (λ reply. reply.items) result ≡ control_reply self.old now reason packet.now }
        ensures control { self.new ≡ control_left self.old now reason packet.now }
        ensures some { IfSome result (λ reply. 0 < length reply.items) }
    {
        if is_handed_on(reason, packet) {
            self.receive(now, packet)
        } else {
            None
        }
    }
}

/// Whether the endpoint gets a packet that the responder dropped for this reason.
fn is_handed_on(reason: Reason, packet: &[u8]) -> bool
    ensures { result ≡ is_handed_on reason packet.now }
{
    match reason {
        Reason::NotPldm => true,
        Reason::UnknownDestination => is_to_null(packet),
        Reason::BadSource => is_from_null(packet),
        _ => false,
    }
}

/// Whether a packet is sent to the null endpoint ID.
fn is_to_null(packet: &[u8]) -> bool
    ensures { result ≡ is_to_null packet.now }
{
    match packet {
        [_, destination, ..] => *destination == NULL_EID,
        _ => false,
    }
}

/// Whether a packet is sent from the null endpoint ID.
fn is_from_null(packet: &[u8]) -> bool
    ensures { result ≡ is_from_null packet.now }
{
    match packet {
        [_, _, source, ..] => *source == NULL_EID,
        _ => false,
    }
}
