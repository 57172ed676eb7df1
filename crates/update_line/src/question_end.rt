//! An end that asks a device one command of firmware update.

ghost use Rattle.std.specs.Prelude.{◌≡◌, None, false, option_and_then, option_map};
ghost use Rattle.pldm_update.specs.AnswerReading.{update_answer_of};
ghost use Rattle.pldm_update.specs.Commands.{number_of};
ghost use Rattle.update_line.specs.OwnAnswers.{response_in};

use crate::exchanges::{moment_at, open, refuse, refuse_update, refused, reply_of, response_to};
use crate::update_end::{Reply, Sending, UpdateEnd};
use bus_endpoint::BusStep;
use mctp_packet::{Body, Memory, Packets};
use pldm_endpoint::MessageStep;
use pldm_requester::Got;
use pldm_terminus::{Terminus, TerminusStep};
use pldm_update::{UpdateAnswer, UpdateCommand, UpdateFault, read_update_answer};
use pldm_wire::ResponseRef;

/// One command of firmware update to a device, until it is answered or given up.
#[derive(Drop)]
pub struct QuestionEnd {
    /// What asks.
    pub end: Terminus,
    /// What is asked.
    pub command: UpdateCommand,
    /// The number of its request, once it is opened.
    pub asked: Option<u64>,
    /// Whether the request has ended: it was answered or given up.
    pub is_over: bool,
}

impl QuestionEnd {
    /// Asks this, as soon as the requester may.
    pub fn new(end: Terminus, command: UpdateCommand) -> QuestionEnd
        ensures { result ≡ record { end = end; command = command; asked = None; is_over = false } }
    {
        QuestionEnd {
            end,
            command,
            asked: None,
            is_over: false,
        }
    }

    /// The answer, where one came, or its first fault.
    pub fn answer(&self) -> Option<Result<UpdateAnswer, UpdateFault>>
        ensures { result ≡ option_map (λ r. update_answer_of (number_of self.now.command) r.code r.rest)
            (option_and_then (response_in self.now.end.asking.requester) self.now.asked) }
    {
        let response = response_to(&self.end, self.asked?)?;
        Some(read_update_answer(self.command.number(), response.code(), response.data()))
    }
}

impl UpdateEnd for QuestionEnd {
    fn receive(&mut self, reading: u64, packet: &[u8], reply: &mut Body) -> Result<Reply, Memory> {
        let now = moment_at(&self.end, reading);
        let step = match self.end.receive_message(now, packet, reply) {
            Ok(step) => step,
            Err(refusal) => return refused(refusal),
        };
        match step {
            TerminusStep::Answering(BusStep::Pldm(MessageStep::Done(taken))) => Ok(reply_of(taken)),
            TerminusStep::Answering(BusStep::Pldm(MessageStep::Perform(handle))) => {
                Ok(refuse(&mut self.end, &handle, reply))
            }
            TerminusStep::Answering(BusStep::Pldm(MessageStep::Respond(handle))) => {
                Ok(refuse_update(&mut self.end, &handle, reply))
            }
            TerminusStep::Answering(BusStep::Control(packet)) => Ok(Reply::Control(packet)),
            TerminusStep::Asking(Got::Answered(number)) => {
                self.is_over = self.is_over || self.asked == Some(number);
                Ok(Reply::Nothing)
            }
            TerminusStep::Asking(Got::Partial) => Ok(Reply::Nothing),
            TerminusStep::Asking(Got::Dropped(reason)) => Ok(Reply::Dropped(reason)),
        }
    }

    fn pass(&mut self, reading: u64) -> Result<Sending, Memory> {
        let now = moment_at(&self.end, reading);
        let due = self.end.tick(now);
        for number in &due.given_up {
            self.is_over = self.is_over || self.asked == Some(*number);
        }
        let mut opened = None;
        if self.asked.is_none() {
            let now = moment_at(&self.end, now.get()); // the same, for the proof
            opened = open(&mut self.end, now, &self.command)?;
            self.asked = opened;
        }
        Ok(Sending {
            again: due.again,
            opened,
        })
    }

    fn packets(&self, number: u64) -> Option<&Packets> {
        self.end.asking()?.packets(number)
    }
}
