//! What `mctpctl show` makes of the packets of a capture, however it writes their messages.

ghost use Rattle.std.specs.Prelude.{◌≡◌, ◌++◌, Err, IfOk, OnOk};
ghost use Rattle.mctpctl_engines.specs.LineTasks.{AddsLine};
ghost use Rattle.mctpctl_engines.specs.LongLines.{observed_refuses};
ghost use Rattle.mctpctl_engines.specs.MessageForms.{whole_message, with_completed, with_read};
ghost use Rattle.mctpctl_engines.specs.ObservedRuns.{Observed, given_at, none_observed, observed_of, observed_step, open_after, open_in, open_with};
ghost use Rattle.mctp_assembly.specs.Fed.{fed_with};
ghost use Rattle.mctpctl_engines.specs.LinePackets.{or_drop, packet_on};
ghost use Rattle.mctpctl_texts.specs.ShownLines.{completed_text, shown_text};
ghost use Rattle.mctp_packet.specs.Reading.{reading};

use crate::capture_lines::{LineRoom, LineTask};
use crate::message_form::MessageForm;
use mctp_assembly::{Assembled, Assembler};
use mctp_packet::{Body, Eid, Memory, PacketRef, Route, read};
use mctpctl_input::{
    Binding, CaptureFault, CaptureLine, EngineFault, packet_of, read_capture_line,
};
use mctpctl_texts::{write_no_frame_line, write_no_packet_line, write_packet_line};
use std::alloc::Global;
use std::collections::BTreeMap;

/// Looks on at packets of anyone, and assembles the messages that come to each endpoint apart from those
/// that come to any other. `F` says how their lines are written.
#[derive(Drop)]
pub struct Observer<F> {
    form: F,
    /// Which frames stand on the lines, if they are not bare packets.
    binding: Option<Binding>,
    /// The moment of the last packet.
    last: u64,
    /// An assembler for each endpoint that a packet has gone to.
    assemblers: BTreeMap<Eid, Assembler>,
}

impl<F: MessageForm> Observer<F> {
    /// An observer to whom nothing has come.
    pub fn new(alloc: Global, form: F, binding: Option<Binding>) -> Observer<F>
        ensures { observed_of F.held_of result ≡ none_observed (F.held_of form) binding }
    {
        Observer {
            form,
            binding,
            last: 0,
            assemblers: BTreeMap::new(alloc),
        }
    }

    /// Adds what is written of bytes that came at a moment. A message that they complete is put into `message`.
    fn show(
        &mut self,
        alloc: Global,
        moment: u64,
        bytes: &[u8],
        message: &mut Body,
        text: &mut Vec<u8>,
    ) -> Result<(), Memory>
        ensures text { OnOk result (text.new.items ≡ text.old.items
            ++ shown_text (λ route body. F.held_line (F.held_of self.old.form) (whole_message route body)) moment
            (packet_on self.old.binding bytes.now) (given_at (open_in self.old.assemblers.entries))) }
        ensures open { OnOk result (open_in self.new.assemblers.entries
            ≡ open_with (open_in self.old.assemblers.entries) (packet_on self.old.binding bytes.now)) }
        ensures held { OnOk result (F.held_of self.new.form ≡ with_read F.held_with (F.held_of self.old.form)
            (packet_on self.old.binding bytes.now) (given_at (open_in self.old.assemblers.entries))) }
        ensures last { self.new.last ≡ self.old.last }
        ensures binding { self.new.binding ≡ self.old.binding }
    {
        let Some(binding) = self.binding else {
            return self.show_packet(alloc, moment, bytes, message, text);
        };
        match packet_of(binding, bytes) {
            Ok(packet) => self.show_packet(alloc, moment, packet.as_slice(), message, text),
            Err(fault) => write_no_frame_line(text, moment, fault.name()),
        }
    }

    /// As `show`, of the bytes of a packet.
    fn show_packet(
        &mut self,
        alloc: Global,
        moment: u64,
        bytes: &[u8],
        message: &mut Body,
        text: &mut Vec<u8>,
    ) -> Result<(), Memory>
        ensures text { OnOk result (text.new.items ≡ text.old.items
            ++ shown_text (λ route body. F.held_line (F.held_of self.old.form) (whole_message route body)) moment
            (or_drop (reading None bytes.now)) (given_at (open_in self.old.assemblers.entries))) }
        ensures open { OnOk result (open_in self.new.assemblers.entries
            ≡ open_with (open_in self.old.assemblers.entries) (or_drop (reading None bytes.now))) }
        ensures held { OnOk result (F.held_of self.new.form ≡ with_read F.held_with (F.held_of self.old.form)
            (or_drop (reading None bytes.now)) (given_at (open_in self.old.assemblers.entries))) }
        ensures last { self.new.last ≡ self.old.last }
        ensures binding { self.new.binding ≡ self.old.binding }
    {
        let packet = match read(bytes) {
            Ok(packet) => packet,
            Err(reason) => return write_no_packet_line(text, moment, reason),
        };
        let given = feed(alloc, &mut self.assemblers, &packet, message)?;
        write_packet_line(text, moment, &packet, given)?;
        push_completed(&mut self.form, alloc, text, packet.route(), given, message)
    }
}

/// Adds the line of the message that a packet completes, or nothing.
fn push_completed<F: MessageForm>(
    form: &mut F,
    alloc: Global,
    out: &mut Vec<u8>,
    route: Route,
    given: Assembled,
    message: &[u8],
) -> Result<(), Memory>
    ensures line { OnOk result (out.new.items ≡ out.old.items
        ++ completed_text (λ body. F.held_line (F.held_of form.old) (whole_message route body))
        (fed_with message.now given)) }
    ensures held { OnOk result (F.held_of form.new
        ≡ with_completed F.held_with (F.held_of form.old) route (fed_with message.now given)) }
{
    match given {
        Assembled::Whole => form.push_line(alloc, out, route, message),
        Assembled::Partial | Assembled::Dropped(_) => Ok(()),
    }
}

/// What a packet gives at its destination, with a message that it completes in `message`.
fn feed(
    alloc: Global,
    assemblers: &mut BTreeMap<Eid, Assembler>,
    packet: &PacketRef<'_>,
    message: &mut Body,
) -> Result<Assembled, Memory>
    ensures fed { IfOk result (λ given. fed_with message.new.items given
        ≡ given_at (open_in assemblers.old.entries) packet.now) }
    ensures open { OnOk result (open_in assemblers.new.entries
        ≡ open_after (open_in assemblers.old.entries) packet.now) }
{
    let destination = packet.route().destination;
    match assemblers.get_mut(&destination) {
        Some(assembler) => return assembler.feed_into(packet, message),
        None => {}
    }
    let mut assembler = Assembler::new(alloc);
    let given = assembler.feed_into(packet, message)?;
    assemblers.insert(destination, assembler)?;
    Ok(given)
}

impl<F: MessageForm> LineTask for Observer<F> {
    ghost State = { Observed F.Held };

    ghost state_of = { observed_of F.held_of };

    ghost step = { observed_step F.held_with F.held_line };

    /// Shows the packet of a line.
    fn answer(
        &mut self,
        alloc: Global,
        number: u64,
        line: &[u8],
        room: &mut LineRoom,
        out: &mut Vec<u8>,
    ) -> Result<(), EngineFault>
        ensures meets { AddsLine number
            (observed_step F.held_with F.held_line (observed_of F.held_of self.old) line.now)
            (observed_of F.held_of self.new) out.old.items out.new.items result }
    {
        let moment = match read_capture_line(&room.digits, line, self.last, &mut room.packet) {
            Ok(CaptureLine::Packet { moment }) => moment,
            Ok(CaptureLine::Skipped) => return Ok(()),
            Err(CaptureFault::Line(kind)) => return Err(EngineFault::Line(number, kind)),
            Err(CaptureFault::Memory(memory)) => return Err(memory.into()),
        };
        room.text.clear();
        let LineRoom {
            packet,
            message,
            text,
            ..
        } = room;
        self.show(alloc, moment, packet, message, text)?;
        self.last = moment;
        Ok(out.extend_from_slice(&room.text)?)
    }

    ghost refuses_long = { observed_refuses F.held_with F.held_line };
}
