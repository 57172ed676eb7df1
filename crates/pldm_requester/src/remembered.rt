//! What a requester remembers of a request: its command, its tries, and its answer.

use crate::ask::AskRef;
use crate::{Due, MAX_OPEN, Status, Timing};
use mctp_packet::{Body, MAX_MESSAGE_BYTES, Moment, Packets, Route, split, split_into};
use pldm_wire::{Command, INSTANCE_IDS, Kind};
use std::marker::Model;

/// How a request stands.
#[derive(Clone, Copy, Debug)]
enum Progress {
    /// It is open.
    Waiting,
    /// It was answered.
    Answered,
    /// It was given up.
    GaveUp,
}

/// The packets of a request's message, and the message that answered it, where one did: the room for it is there from the
/// opening on.
#[derive(Debug, Drop)]
pub(crate) struct Content {
    packets: Packets,
    answer: Body,
}

/// What is remembered of a request.
#[derive(Debug, Drop)]
pub(crate) struct Remembered {
    /// Which command it asks for.
    pub(crate) kind: Kind,
    /// When it was opened.
    pub(crate) opening: Moment,
    /// When it was last sent: its opening, or the last tick that sent it again.
    last_sent: Moment,
    /// How it stands.
    progress: Progress,
    /// Its packets and its answer, where they are kept.
    content: Option<Box<Content>>,
}

impl Model for Remembered {
    ghost use Rattle.std.specs.Prelude.{is_some};
    ghost use Rattle.pldm_requester.specs.Steps.{Memo};
    ghost use Rattle.pldm_requester.specs.Slots.{coded_memo};

    ghost Value = { Memo };

    ghost coded = { coded_memo };

    ghost use Rattle.pldm_requester.specs.RequestProgress.{answer_in, packets_in, progress_of};

    ghost view = { λ r. record {
      kind = r.kind;
      packets = packets_in r.content;
      course = record {
        opening = r.opening;
        last_sent
            = r.last_sent;
        progress = progress_of r.progress (answer_in r.content);
      };
      is_whole = is_some r.content;
    } };
}

impl Remembered {
    ghost use Rattle.std.specs.Prelude.{◌≡◌, ℕ, ◌<◌, ◌≤◌, true, is_some, Some, option_map, [], ◌∷◌, ◌++◌, length, if◌then◌else◌};
    ghost use Rattle.arrayvec.specs.ArrayVec.{array_vec_len};
    ghost use Rattle.pldm_wire.specs.Commands.{kind_of};
    ghost use Rattle.pldm_requester.specs.AskRefs.{ask_in};
    ghost use Rattle.pldm_requester.specs.Courses.{answered, begun, given_up, is_open, is_over, is_given_up, is_sent_again, ticked};
    ghost use Rattle.pldm_requester.specs.Deadlines.{is_due, is_reached};
    ghost use Rattle.pldm_requester.specs.Pacing.{is_answered_from};
    ghost use Rattle.pldm_requester.specs.Steps.{outline, whole, with_course};
    ghost use Rattle.pldm_requester.specs.RequestProgress.{packets_in, progress_in_status};

    /// A request that is opened now: it asks so, and this is kept of it.
    pub(crate) fn new(content: Box<Content>, ask: &AskRef<'_>, now: Moment) -> Remembered
        ensures { result ≡ record {
          kind = (ask_in ask.now).kind;
          packets = content.value.packets;
          course = begun now;
          is_whole = true;
        } }
    {
        Remembered {
            kind: ask.kind(),
            opening: now,
            last_sent: now,
            progress: Progress::Waiting,
            content: Some(content),
        }
    }

    /// A request of which the opening alone is known, and this is kept: it stands as one for the terminus ID that was given
    /// up.
    pub(crate) fn shut(content: Option<Box<Content>>, opening: Moment) -> Remembered
        ensures { result ≡ record {
          kind = kind_of Command.GetTid;
          packets = packets_in content;
          course = given_up (begun opening);
          is_whole = is_some content;
        } }
    {
        Remembered {
            kind: Command::GetTid.kind(),
            opening,
            last_sent: opening,
            progress: Progress::GaveUp,
            content,
        }
    }

    /// Its packets and its answer, where they are kept: they are let go.
    pub(crate) fn let_go(&mut self) -> Option<Box<Content>>
        ensures outline { self.new ≡ outline self.old }
        ensures kept { is_some result ≡ self.old.is_whole }
    {
        self.content.take()
    }

    /// The packets of its message, where they are kept.
    pub(crate) fn packets(&self) -> Option<&Packets>
        ensures value { option_map (λ packets. packets.now) result
            ≡ option_map (λ memo. memo.packets) (whole (Some self.now)) }
        ensures there { is_some result ≡ is_some (whole (Some self.now)) }
    {
        match &self.content {
            Some(content) => Some(&content.packets),
            None => None,
        }
    }

    /// Whether it is open.
    pub(crate) fn is_open(&self) -> bool
        ensures { result ≡ is_open self.now.course }
    {
        matches!(self.progress, Progress::Waiting)
    }

    /// Whether it was opened at this moment or later, and answered.
    pub(crate) fn is_answered_from(&self, start: u64) -> bool
        ensures { result ≡ is_answered_from start self.now.course }
    {
        matches!(self.progress, Progress::Answered) && self.opening.get() >= start
    }

    /// Whether all tries have had their time.
    fn is_over(&self, timing: &Timing, now: Moment) -> bool
        ensures { result ≡ is_over timing.now now self.now.course }
    {
        self.opening.get() + timing.life() <= now.get()
    }

    /// Whether a tick gives it up.
    fn is_given_up(&self, timing: &Timing, now: Moment) -> bool
        ensures { result ≡ is_given_up timing.now now self.now.course }
    {
        self.is_open() && self.is_over(timing, now)
    }

    /// Whether a tick sends it again.
    fn is_sent_again(&self, timing: &Timing, now: Moment) -> bool
        ensures { result ≡ is_sent_again timing.now now self.now.course }
    {
        self.is_open()
            && !self.is_over(timing, now)
            && self.last_sent.get() + u64::from(timing.timeout) <= now.get()
    }

    /// What a tick makes of it. Where it is due, its number is listed.
    pub(crate) fn tick(&mut self, number: u64, timing: &Timing, now: Moment, due: &mut Due)
        requires again { array_vec_len due.old.again < MAX_OPEN }
        requires given_up { array_vec_len due.old.given_up < MAX_OPEN }
        ensures value { self.new ≡ with_course (ticked timing.now now) self.old }
        ensures again { due.new.again.items ≡ due.old.again.items
            ++ (if is_sent_again timing.now now self.old.course then number ∷ [] else []) }
        ensures given_up { due.new.given_up.items ≡ due.old.given_up.items
            ++ (if is_given_up timing.now now self.old.course then number ∷ [] else []) }
    {
        if self.is_given_up(timing, now) {
            self.progress = Progress::GaveUp;
            due.given_up.push(number);
        } else if self.is_sent_again(timing, now) {
            self.last_sent = now;
            due.again.push(number);
        }
    }

    /// The moment from which on a tick has something to do for it, where it is open.
    pub(crate) fn due_from(&self, timing: &Timing) -> Option<u64>
        ensures { (moment : ℕ) → is_reached result moment ≡ is_due timing.now moment self.now.course }
    {
        if !self.is_open() {
            return None;
        }
        let over = self.opening.get() + timing.life();
        let again = self.last_sent.get() + u64::from(timing.timeout);
        Some(if again < over { again } else { over })
    }

    /// It is answered by this message.
    pub(crate) fn take(&mut self, message: &[u8])
        requires few { length message.now ≤ MAX_MESSAGE_BYTES }
        requires kept { self.old.is_whole ≡ true }
        ensures { self.new ≡ with_course (answered message.now) self.old }
    {
        if let Some(content) = &mut self.content {
            content.answer.clear();
            content.answer.try_extend_from_slice(message).unwrap();
            self.progress = Progress::Answered;
        }
    }

    /// How it stands, as callers see it, where its packets and its answer are kept.
    pub(crate) fn status(&self) -> Option<Status<'_>>
        ensures value { option_map progress_in_status result
            ≡ option_map (λ memo. memo.course.progress) (whole (Some self.now)) }
        ensures there { is_some result ≡ is_some (whole (Some self.now)) }
    {
        let content = self.content.as_ref()?;
        Some(match &self.progress {
            Progress::Waiting => Status::Open,
            Progress::Answered => Status::Answered(&content.answer),
            Progress::GaveUp => Status::GaveUp,
        })
    }
}

impl Content {
    ghost use Rattle.std.specs.Prelude.{◌≡◌, ◌<◌};
    ghost use Rattle.mctp_packet.specs.Pieces.{written_packets};
    ghost use Rattle.pldm_requester.specs.Asks.{ask_message};
    ghost use Rattle.pldm_requester.specs.AskRefs.{HasRoom, IsReadable, ask_in};

    /// What is kept of a request that asks so, with this instance ID on this route.
    // Its message is put where its answer will be: then there is one room for both.
    pub(crate) fn new(id: u8, ask: &AskRef<'_>, route: &Route) -> Content
        requires id { id < INSTANCE_IDS }
        requires room { HasRoom ask.now }
        ensures packets { result.packets ≡ written_packets route.now (ask_message id (ask_in ask.now)) }
        ensures readable { IsReadable ask.now }
    {
        let mut message = Body::new();
        ask.put(&mut message, id);
        Content {
            packets: split(route, &message).unwrap(),
            answer: message,
        }
    }

    /// The same in the place of what was kept of another request.
    // As at first: so no room has to be cleared for its message.
    pub(crate) fn begin(&mut self, id: u8, ask: &AskRef<'_>, route: &Route)
        requires id { id < INSTANCE_IDS }
        requires room { HasRoom ask.now }
        ensures packets { self.new.packets ≡ written_packets route.now (ask_message id (ask_in ask.now)) }
        ensures readable { IsReadable ask.now }
    {
        ask.put(&mut self.answer, id);
        split_into(route, &self.answer, &mut self.packets).unwrap();
    }
}
