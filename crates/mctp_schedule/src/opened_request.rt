//! A request that was opened, as a report has it.

ghost use Rattle.std.specs.Prelude.{◌≡◌, ◌≤◌, ◌++◌, ◌%◌, [], OnOk, length};
ghost use Rattle.pldm_requester.specs.Courses.{GaveUp, Answered};
ghost use Rattle.pldm_requester.specs.Numbering.{id_of, tag_of};
ghost use Rattle.pldm_requester.specs.RequestProgress.{progress_in_status};
ghost use Rattle.mctp_schedule.specs.Requests.{begun, with_message, with_progress};

use crate::Delivery;
use crate::askers::MAX_REQUEST_PACKET_BYTES;
use crate::stored_message::{MAX_SHORT, ShortMessage, share_or_store};
use arrayvec::ArrayVec;
use bumpalo::Bump;
use mctp_packet::{Eid, HEADER, Memory, Moment, TAGS, Tag};
use pldm_requester::Status;
use pldm_wire::{INSTANCE_IDS, MAX_REQUEST_BYTES};
use std::alloc::Global;
use std::marker::Model;

/// A request that was opened, and how it stands. Its message has few bytes and stands in place, so that an
/// opening asks for memory only where a list grows.
#[derive(Debug, Drop)]
pub struct OpenedRequest<'a> {
    number: u64,
    opening: Moment,
    requester: Eid,
    message: ShortMessage<MAX_REQUEST_BYTES>,
    progress: Progress<'a>,
}

// A run holds one for each request: the requester and the message, with its count, lie in four words together.
const _: () = prove!(size_of::<OpenedRequest<'_>>() == 72);

/// How it stands. The same mark says how its answer is stored.
#[derive(Debug, Drop)]
enum Progress<'a> {
    /// It is open.
    Waiting,
    /// It was answered, by this short message.
    AnsweredShort(ShortMessage<MAX_SHORT>),
    /// It was answered, by this longer message, which may be shared.
    AnsweredShared(&'a [u8]),
    /// It was given up.
    GaveUp,
}

impl<'a> Model for OpenedRequest<'a> {
    ghost use Rattle.mctp_schedule.specs.Requests.{Request, coded_request, progress_of};

    ghost Value = { Request };

    ghost coded = { coded_request };

    ghost view = { λ r. record {
      asked = record { source = r.requester; own = r.number; opening = r.opening; message = r.message };
      progress = progress_of r.progress;
    } };
}

impl<'a> OpenedRequest<'a> {
    /// A request that is open, with no message yet.
    pub(crate) fn new(requester: Eid, number: u64, opening: Moment) -> OpenedRequest<'a>
        ensures { result ≡ begun requester number opening [] }
    {
        OpenedRequest {
            number,
            opening,
            requester,
            message: ShortMessage::empty(),
            progress: Progress::Waiting,
        }
    }

    /// Its message is this from now on.
    pub(crate) fn set_message(&mut self, message: &[u8])
        requires { length message.now ≤ MAX_REQUEST_BYTES }
        ensures { self.new ≡ with_message message.now self.old }
    {
        self.message.set(message);
    }

    /// The endpoint that asks.
    pub fn requester(&self) -> Eid
        ensures { result ≡ self.now.asked.source }
    {
        self.requester
    }

    /// Its number, counted from 0 over the opened requests of its requester.
    pub fn number(&self) -> u64
        ensures { result ≡ self.now.asked.own }
    {
        self.number
    }

    /// Its instance ID (DSP0240, "PLDM message fields").
    pub fn id(&self) -> u8
        ensures { result ≡ id_of self.now.asked.own }
    {
        (self.number % u64::from(INSTANCE_IDS)) as u8
    }

    /// Its tag (DSP0236, "MCTP packet fields").
    pub fn tag(&self) -> Tag
        ensures { result ≡ tag_of self.now.asked.own }
    {
        Tag::new((self.number % u64::from(TAGS)) as u8).unwrap()
    }

    /// When it was opened.
    pub fn opening(&self) -> Moment
        ensures { result ≡ self.now.asked.opening }
    {
        self.opening
    }

    /// Its message.
    pub fn message(&self) -> &[u8]
        ensures { result.now ≡ self.now.asked.message }
    {
        self.message.bytes()
    }

    /// Puts the bytes of its packet, which has this header, in the place of those that `packet` has.
    pub(crate) fn write_packet(
        &self,
        header: &[u8; HEADER],
        packet: &mut ArrayVec<u8, MAX_REQUEST_PACKET_BYTES>,
    )
        ensures { packet.new.items ≡ header.now ++ self.now.asked.message }
    {
        packet.clear();
        packet.try_extend_from_slice(header).unwrap();
        packet.try_extend_from_slice(self.message.bytes()).unwrap();
    }

    /// How it stands.
    pub fn status(&self) -> Status<'_>
        ensures { progress_in_status result ≡ self.now.progress }
    {
        match &self.progress {
            Progress::Waiting => Status::Open,
            Progress::AnsweredShort(message) => Status::Answered(message.bytes()),
            Progress::AnsweredShared(message) => Status::Answered(message),
            Progress::GaveUp => Status::GaveUp,
        }
    }

    /// It is given up.
    pub(crate) fn give_up(&mut self)
        ensures { self.new ≡ with_progress GaveUp self.old }
    {
        self.progress = Progress::GaveUp;
    }

    /// It is answered by this message. Its bytes lie where those of the answer of `sent` do if both are long and the
    /// same.
    pub(crate) fn answer(
        &mut self,
        arena: &'a Bump<Global>,
        message: &[u8],
        sent: Option<&Delivery<'a>>,
    ) -> Result<(), Memory>
        ensures { OnOk result (self.new ≡ with_progress (Answered message.now) self.old) }
    {
        if message.len() > MAX_SHORT {
            self.progress = Progress::AnsweredShared(share_or_store(arena, message, sent)?);
            return Ok(());
        }
        // Its bytes are written where they stay, so that they are not moved.
        self.progress = Progress::AnsweredShort(ShortMessage::empty());
        match &mut self.progress {
            Progress::AnsweredShort(short) => short.set(message),
            _ => unreachable!(),
        }
        Ok(())
    }
}
