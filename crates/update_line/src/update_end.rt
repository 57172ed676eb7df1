//! An end of an update, as the line sees it.

use arrayvec::ArrayVec;
use mctp_control::ControlPacket;
use mctp_packet::{Body, Memory, Packets, Reason, Route};
use pldm_requester::MAX_OPEN;

/// What is sent for a packet that came.
#[derive(Debug, Drop)]
pub enum Reply {
    /// Nothing: it is a part of a message, or was taken.
    Nothing,
    /// Nothing: it was dropped.
    Dropped(Reason),
    /// A message, on this route.
    Message(Route),
    /// The packet that answers a control message.
    Control(ControlPacket),
}

/// The requests whose packets are to be sent.
#[derive(Debug, Drop)]
pub struct Sending {
    /// Those that are sent again, by their numbers.
    pub again: ArrayVec<u64, MAX_OPEN>,
    /// The one that was opened.
    pub opened: Option<u64>,
}

/// An end of an update.
pub trait UpdateEnd {
    /// Takes the bytes of a packet that came at this reading of the clock, in milliseconds. The message of
    /// [`Reply::Message`] is in `reply`.
    ///
    /// # Errors
    ///
    /// Where a growth of memory was refused. The packet counts as lost.
    fn receive(&mut self, reading: u64, packet: &[u8], reply: &mut Body) -> Result<Reply, Memory>;

    /// Lets the time pass up to this reading of the clock, in milliseconds, and asks what there is to ask.
    ///
    /// # Errors
    ///
    /// Where a growth of memory was refused. It may be called again.
    fn pass(&mut self, reading: u64) -> Result<Sending, Memory>;

    /// The packets of a request that is to be sent.
    fn packets(&self, number: u64) -> Option<&Packets>;
}
