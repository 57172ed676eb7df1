//! What becomes of a packet at a bus endpoint: what its PLDM endpoint makes of it, or the answer to a control message.

ghost use Rattle.std.specs.Prelude.{◌≡◌, ℕ, ◌<◌, IfSome, List, length, option_map};
ghost use Rattle.pldm_endpoint.specs.Stepping.{StepHasReply, stepping};
ghost use Rattle.bus_endpoint.specs.Coming.{BusStepHasReply, IsStep, dropped_for};

use mctp_control::ControlPacket;
use mctp_packet::Reason;
use pldm_endpoint::MessageStep;
use pldm_responder::MessageOutcome;

/// What becomes of the bytes of a packet, as [`crate::BusEndpoint::receive_message`] returns it.
#[derive(Debug, Drop)]
pub enum BusStep {
    /// They are no control message that is answered: this is what becomes of them at the endpoint.
    Pldm(MessageStep),
    /// They are a control message, and this packet answers it.
    Control(ControlPacket),
}

/// Why the endpoint dropped the bytes, if it did.
pub(crate) fn dropped_for(step: &MessageStep) -> Option<Reason>
    ensures { (reply : List ℕ) → result ≡ dropped_for (stepping reply step.now) }
{
    match step {
        MessageStep::Done(MessageOutcome::Dropped(reason)) => Some(*reason),
        _ => None,
    }
}

/// What becomes of bytes that the endpoint dropped: this packet answers them, or nothing does.
pub(crate) fn answered(answer: Option<ControlPacket>, step: MessageStep) -> BusStep
    ensures step { (reply : List ℕ) → IsStep reply (stepping reply step) (option_map (λ a. a.items) answer) result }
    ensures some { (reply : List ℕ) → StepHasReply reply step → IfSome answer (λ a. 0 < length a.items)
        → BusStepHasReply reply result }
{
    match answer {
        Some(packet) => BusStep::Control(packet),
        None => BusStep::Pldm(step),
    }
}
