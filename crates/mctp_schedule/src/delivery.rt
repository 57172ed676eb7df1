//! What became of a packet that was delivered to the device, with the answer to it.

ghost use Rattle.std.specs.Prelude.{◌≡◌, IfOk, IfSome, option_map};
ghost use Rattle.mctp_packet.specs.Packets.{written};
ghost use Rattle.pldm_responder.specs.Answering.{answering};
ghost use Rattle.mctp_schedule.specs.Deliveries.{ComesTo, packet_of_outcome};

use crate::stored_message::{MAX_SHORT, ShortMessage, share_or_store};
use bumpalo::Bump;
use mctp_packet::{MAX_PACKET_BYTES, Memory, PacketRef, packet_at, write};
use pldm_responder::MessageOutcome;
use std::alloc::Global;
use std::marker::Model;

/// What became of the packet of a request. An answer is kept as one message, of which packets are made
/// where they are asked for.
#[derive(Debug, Drop)]
pub struct Delivery<'a> {
    kept: KeptDelivery<'a>,
}

// A run keeps one for each delivery, with a short answer in place.
const _: () = prove!(size_of::<Delivery<'_>>() == 24);

/// What is kept of a delivery. Whether its answer is short or shared is the variant of this same type, so that what
/// became of the packet lies beside the variant's mark and takes no more memory.
#[derive(Debug, Drop)]
enum KeptDelivery<'a> {
    /// The answer is short. So is that of a packet which was not answered: it has no bytes.
    Short {
        taken: MessageOutcome,
        reply: ShortMessage<MAX_SHORT>,
    },
    /// The answer is longer, and may be shared.
    Shared {
        taken: MessageOutcome,
        reply: &'a [u8],
    },
}

impl<'a> Model for Delivery<'a> {
    ghost use Rattle.mctp_schedule.specs.Deliveries.{outcome_of};
    ghost use Rattle.pldm_responder.specs.declared.outcome.Outcome.{Outcome};

    ghost Value = { Outcome };

    ghost view = { λ d. outcome_of d.kept };
}

/// The same outcome. Its parts are read one by one, as they were stored: for bytes that were just stored one by one and
/// are read as a whole a processor waits.
#[inline(always)]
fn part_by_part(taken: MessageOutcome) -> MessageOutcome
    ensures { result ≡ taken }
{
    match taken {
        MessageOutcome::Dropped(reason) => MessageOutcome::Dropped(reason),
        MessageOutcome::Partial => MessageOutcome::Partial,
        MessageOutcome::Answered {
            fresh,
            changed,
            route,
        } => MessageOutcome::Answered {
            fresh,
            changed,
            route,
        },
    }
}

impl<'a> Delivery<'a> {
    /// The delivery of which this became, where `reply` is the message that answers it. Its bytes lie where
    /// those of the answer of `last` do if both are long and the same.
    // Inlined: it is then made where it is pushed.
    #[inline(always)]
    pub(crate) fn new(
        arena: &'a Bump<Global>,
        taken: MessageOutcome,
        reply: &[u8],
        last: Option<&Delivery<'a>>,
    ) -> Result<Delivery<'a>, Memory>
        ensures { IfOk result (λ delivery. delivery ≡ answering reply.now taken) }
    {
        let taken = part_by_part(taken);
        let reply = match &taken {
            MessageOutcome::Answered { .. } => reply,
            _ => &[], // it was not answered
        };
        // Most answers are short: those ask for no memory, so their length is looked at first.
        let kept = if reply.len() <= MAX_SHORT {
            let reply = ShortMessage::new(reply);
            KeptDelivery::Short { taken, reply }
        } else {
            let reply = share_or_store(arena, reply, last)?;
            KeptDelivery::Shared { taken, reply }
        };
        Ok(Delivery { kept })
    }

    /// What became of it, but for the answer, and the message that answers it, empty where none does.
    fn parts(&self) -> (&MessageOutcome, &[u8])
        ensures { answering result.1.now result.0.now ≡ self.now }
    {
        match &self.kept {
            KeptDelivery::Short { taken, reply } => (taken, reply.bytes()),
            KeptDelivery::Shared { taken, reply } => (taken, reply),
        }
    }

    /// What became of it, and whether it was performed, but for the answer.
    pub fn taken(&self) -> &MessageOutcome
        ensures { ComesTo result.now self.now }
    {
        self.parts().0
    }

    /// A share of the bytes of its answer, where they are these and may be shared.
    pub(crate) fn share(&self, bytes: &[u8]) -> Option<&'a [u8]>
        ensures { IfSome result (λ shared. shared.now ≡ bytes.now) }
    {
        match &self.kept {
            // Compared, and not taken on trust: the journal has each answer as it was given.
            KeptDelivery::Shared { reply, .. } if *reply == bytes => Some(reply),
            _ => None,
        }
    }

    /// The bytes of packet `index` of the answer, counted from 0, which are written in front of `room`;
    /// `None` past the last, and where it was not answered.
    pub fn packet<'r>(&self, index: usize, room: &'r mut [u8; MAX_PACKET_BYTES]) -> Option<&'r [u8]>
        ensures { option_map (λ bytes. bytes.now) result ≡ packet_of_outcome self.now index }
    {
        let packet = self.answer_packet(index)?;
        Some(bytes_of(&packet, room))
    }

    /// As [`Delivery::packet`], with the packet as it would be read from those bytes. Nothing is written for it.
    pub fn answer_packet(&self, index: usize) -> Option<PacketRef<'_>>
        ensures { option_map (λ packet. written packet) result ≡ packet_of_outcome self.now index }
    {
        let (taken, reply) = self.parts();
        let MessageOutcome::Answered { route, .. } = taken else {
            return None;
        };
        packet_at(route, reply, index)
    }
}

/// The bytes of a packet, which are written in front of `room`.
fn bytes_of<'a>(packet: &PacketRef<'_>, room: &'a mut [u8; MAX_PACKET_BYTES]) -> &'a [u8]
    ensures { result.now ≡ written packet.now }
{
    let count = write(packet, room);
    &room[..count]
}
