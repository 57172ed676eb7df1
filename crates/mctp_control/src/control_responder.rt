//! What a simple endpoint answers to control messages.

ghost use Rattle.std.specs.Prelude.{◌≡◌, ◌+◌, IfSome, option_map, length};
ghost use Rattle.mctp_packet.specs.declared.TheConstants.{HEADER};
ghost use Rattle.mctp_control.specs.Assignments.{assignment};
ghost use Rattle.mctp_control.specs.Commands.{command_data};
ghost use Rattle.mctp_control.specs.Packets.{is_from, is_to, left_by, reply_to, request_in};
ghost use Rattle.mctp_control.specs.Responding.{answer_by, assignment_by, copied, left_with};
ghost use Rattle.mctp_control.specs.Settings.{accepted_by, accepted_eid, answer_to, eid_kind, own_eid, set_answer, takes, unaccepted_answer, version_answer};
ghost use Rattle.mctp_control.specs.declared.assigned.TheConstants.{REQUEST_HEADER};

use crate::packet_header::{has_version, is_whole_request, reply_flags};
use crate::{
    Answer, Assignment, BASE_SPECIFICATION, CONTROL, Command, CompletionCode, EidKind,
    EidOperation, EndpointKind, KeptAssignment, KeptAssignments, MessageTypes, PLDM, RequestRef,
    UUID_BYTES, VERSION_BYTES, Versions, read_command, read_request, write_answer,
};
use arrayvec::ArrayVec;
use mctp_packet::{Eid, HEADER, Keep, MAX_PACKET_BYTES, Moment, NULL_EID, VERSION};

/// A packet of a control message: at most 68 bytes.
pub type ControlPacket = ArrayVec<u8, MAX_PACKET_BYTES>;

/// A simple endpoint, as a bus owner sees it (DSP0236, "MCTP control protocol").
#[derive(Debug, Drop)]
pub struct ControlResponder {
    /// Its endpoint ID; `None`: none was assigned yet, and it has the null one.
    pub eid: Option<Eid>,
    /// The static endpoint ID that it was set up with, if it was: Reset goes back to it.
    pub static_eid: Option<Eid>,
    /// Whether it takes another endpoint ID from a bus owner.
    pub takes_eid: bool,
    /// For how long a later copy of a request that assigned an endpoint ID is known as a copy.
    pub keep: Keep,
    /// Its UUID, in the order of RFC 4122.
    pub uuid: [u8; UUID_BYTES],
    /// The version of the base specification that it keeps to, as on the wire (DSP0236, "Version field encoding").
    pub base_version: [u8; VERSION_BYTES],
    /// The version of the control protocol that it keeps to.
    pub control_version: [u8; VERSION_BYTES],
    /// The version of PLDM over MCTP (DSP0241) that it keeps to.
    pub pldm_version: [u8; VERSION_BYTES],
    /// The assignments that it accepted last.
    pub kept: KeptAssignments,
}

impl ControlResponder {
    /// Takes the bytes of a packet that came at the moment `now`, and returns the packet that answers it; `None` where
    /// it is no control request to this endpoint ID or, by its physical address, to the null one. Each message is one
    /// packet. A command that a simple endpoint doesn't have is answered with ERROR_UNSUPPORTED_CMD, and data of
    /// another length than the command's with ERROR_INVALID_LENGTH. The answer comes from the endpoint ID that it had
    /// when it was asked, the null one where it had none.
    ///
    /// A Set Endpoint ID that is accepted is kept. A later request of the same source with the same bytes is a copy of
    /// it, where it comes less than `keep` after it and fewer than [`crate::KEPT_ASSIGNMENTS`] others were accepted
    /// since: it gets the same answer, and changes nothing.
    pub fn receive(&mut self, now: Moment, packet: &[u8]) -> Option<ControlPacket>
        ensures reply { option_map (λ reply. reply.items) result ≡ reply_to self.old now packet.now }
        ensures left { self.new ≡ left_by self.old now packet.now }
    {
        let request = self.request(packet)?;
        let (source, flags) = (packet[2], packet[3]);
        let mut reply = ControlPacket::new();
        reply.push(VERSION);
        reply.push(source);
        reply.push(self.own_eid());
        reply.push(reply_flags(flags));
        let answer = self.answered(now, source, &packet[HEADER..], &request);
        let message = write_answer(request.id(), request.command(), &answer);
        let _ = reply.try_extend_from_slice(&message); // it fits
        Some(reply)
    }

    /// The request that a packet brings.
    fn request<'a>(&self, packet: &'a [u8]) -> Option<RequestRef<'a>>
        ensures value { result ≡ request_in self.now packet.now }
        ensures size { IfSome result (λ r. length packet.now ≡ HEADER + (REQUEST_HEADER + length r.rest)) }
    {
        let [version, destination, source, flags, message @ ..] = packet else {
            return None;
        };
        if packet.len() > MAX_PACKET_BYTES || !has_version(*version) {
            return None;
        }
        if !is_whole_request(*flags) {
            return None;
        }
        if !self.is_to(*destination) || !self.is_from(*source) {
            return None;
        }
        read_request(message)
    }

    /// The number of its endpoint ID, the null one where it has none.
    fn own_eid(&self) -> u8
        ensures { result ≡ own_eid self.now }
    {
        match self.eid {
            Some(eid) => eid.get(),
            None => NULL_EID,
        }
    }

    /// Whether a packet to this destination is for this endpoint.
    fn is_to(&self, destination: u8) -> bool
        ensures { result ≡ is_to self.now destination }
    {
        destination == self.own_eid() || destination == NULL_EID
    }

    /// Whether a packet of this source comes from another endpoint.
    fn is_from(&self, source: u8) -> bool
        ensures { result ≡ is_from self.now source }
    {
        match Eid::new(source) {
            Some(eid) => eid.get() != self.own_eid(),
            None => source == NULL_EID,
        }
    }

    /// Answers a request of this source with this message. Where it is no copy and assigns an endpoint ID, the
    /// responder takes that endpoint ID.
    fn answered(
        &mut self,
        now: Moment,
        source: u8,
        message: &[u8],
        request: &RequestRef<'_>,
    ) -> Answer
        requires { length message.now ≡ REQUEST_HEADER + length request.now.rest }
        ensures answer { result ≡ answer_by self.old (copied self.old now source message.now) request.now }
        ensures left { self.new ≡ left_with self.old
            (assignment_by self.old now source message.now (copied self.old now source message.now) request.now) }
    {
        if let Some(kept) = self.kept.copied(self.keep, now, source, message) {
            return Answer::EndpointIdSet {
                assignment: Assignment::Accepted,
                eid: kept.eid.get(),
            };
        }
        match read_command(request) {
            Ok(command) => {
                let answer = self.answer(&command);
                self.take(now, source, message, &command);
                answer
            }
            Err(code) => Answer::Refused(code),
        }
    }

    /// Takes the endpoint ID that a command assigns, where it assigns one, and keeps the assignment.
    fn take(&mut self, now: Moment, source: u8, message: &[u8], command: &Command)
        requires { length message.now ≡ REQUEST_HEADER + length (command_data command.now) }
        ensures { self.new ≡ left_with self.old
            (option_map (assignment source message.now now) (accepted_by self.old command.now)) }
    {
        let Some(eid) = self.accepted(command) else {
            return;
        };
        let Ok(message) = message.try_into() else {
            unreachable!();
        };
        self.eid = Some(eid);
        self.kept.put(KeptAssignment {
            source,
            message,
            moment: now,
            eid,
        });
    }

    /// What it answers to a command that is no copy.
    pub fn answer(&self, command: &Command) -> Answer
        ensures { result ≡ answer_to self.now command.now }
    {
        match command {
            Command::SetEndpointId { operation, eid } => self.set_answer(*operation, *eid),
            Command::GetEndpointId => Answer::EndpointId {
                eid: self.own_eid(),
                endpoint: EndpointKind::Simple,
                kind: self.eid_kind(),
                medium: 0,
            },
            Command::GetEndpointUuid => Answer::EndpointUuid(self.uuid),
            Command::GetVersionSupport { message_type } => self.version_answer(*message_type),
            Command::GetMessageTypeSupport => {
                Answer::MessageTypeSupport(MessageTypes::new(&[CONTROL, PLDM]).unwrap())
            }
        }
    }

    /// Where it has its endpoint ID from.
    fn eid_kind(&self) -> EidKind
        ensures { result ≡ eid_kind self.now.static_eid }
    {
        match self.static_eid {
            Some(_) => EidKind::Static,
            None => EidKind::Dynamic,
        }
    }

    /// The endpoint ID with which it accepts a command, if it does.
    fn accepted(&self, command: &Command) -> Option<Eid>
        ensures { result ≡ accepted_by self.now command.now }
    {
        match command {
            Command::SetEndpointId { operation, eid } => self.accepted_eid(*operation, *eid),
            _ => None,
        }
    }

    /// The endpoint ID with which it accepts Set Endpoint ID, if it does. Force is accepted where Set is. Reset is
    /// accepted with the static endpoint ID, where there is one. The endpoint has no discovered flag, so SetDiscovered
    /// is not accepted.
    fn accepted_eid(&self, operation: EidOperation, wanted: u8) -> Option<Eid>
        ensures { result ≡ accepted_eid self.now operation wanted }
    {
        match operation {
            EidOperation::Set | EidOperation::Force => {
                let wanted = Eid::new(wanted)?;
                if self.takes(wanted) {
                    Some(wanted)
                } else {
                    None
                }
            }
            EidOperation::Reset => self.static_eid,
            EidOperation::SetDiscovered => None,
        }
    }

    /// Whether it takes this endpoint ID.
    fn takes(&self, wanted: Eid) -> bool
        ensures { result ≡ takes self.now wanted }
    {
        wanted.get() == self.own_eid() || self.takes_eid
    }

    /// What it answers to Set Endpoint ID.
    fn set_answer(&self, operation: EidOperation, wanted: u8) -> Answer
        ensures { result ≡ set_answer self.now operation wanted }
    {
        match self.accepted_eid(operation, wanted) {
            Some(eid) => Answer::EndpointIdSet {
                assignment: Assignment::Accepted,
                eid: eid.get(),
            },
            None => self.unaccepted_answer(operation, wanted),
        }
    }

    /// What it answers to Set Endpoint ID where it does not accept it: Set and Force with a number that is an endpoint
    /// ID are rejected, and all else is refused with ERROR_INVALID_DATA.
    fn unaccepted_answer(&self, operation: EidOperation, wanted: u8) -> Answer
        ensures { result ≡ unaccepted_answer self.now operation wanted }
    {
        match operation {
            EidOperation::Set | EidOperation::Force if Eid::new(wanted).is_some() => {
                Answer::EndpointIdSet {
                    assignment: Assignment::Rejected,
                    eid: self.own_eid(),
                }
            }
            _ => Answer::Refused(CompletionCode::ERROR_INVALID_DATA),
        }
    }

    /// What it answers where it is asked for versions.
    fn version_answer(&self, message_type: u8) -> Answer
        ensures { result ≡ version_answer self.now message_type }
    {
        let version = match message_type {
            BASE_SPECIFICATION => &self.base_version,
            CONTROL => &self.control_version,
            PLDM => &self.pldm_version,
            _ => return Answer::Refused(CompletionCode::MESSAGE_TYPE_NOT_SUPPORTED),
        };
        Answer::VersionSupport(Versions::new(version).unwrap())
    }
}
