//! The records that come in parts between any requesters and responders, and the lines of those that have come.

ghost use Rattle.std.specs.Prelude.{◌≡◌, ◌++◌, OnOk};
ghost use Rattle.mctpctl_decode.specs.HeldTransfers.{held_in};
ghost use Rattle.mctpctl_decode.specs.TransferTexts.{checked_lines, ended_lines, given_lines, message_ends};
ghost use Rattle.mctpctl_decode.specs.Transfers.{all_with_asked, all_with_given, asked_by, given, given_by, none_between, with_message};
ghost use Rattle.mctpctl_engines.specs.MessageForms.{whole_message};

use crate::record_text::{push_record, push_unread_line};
use crate::transfer::{PartRequest, Transfer};
use mctp_packet::{Eid, Memory, Route};
use pldm_wire::{
    Answer, Command, RecordPart, crc8, read_answer_of, read_command, read_request, read_response,
};
use std::alloc::Global;
use std::collections::BTreeMap;

/// What has gone between each requester and each responder.
#[derive(Drop)]
pub struct Transfers {
    /// By the endpoint IDs of both, the requester's first.
    pub between: BTreeMap<(Eid, Eid), Transfer>,
}

impl Transfers {
    /// Nothing has gone yet.
    pub fn new(alloc: Global) -> Transfers
        ensures { held_in result.between.entries ≡ none_between }
    {
        Transfers {
            between: BTreeMap::new(alloc),
        }
    }

    /// Takes a whole message, and adds the lines of the record of which it is the last part.
    pub fn take(
        &mut self,
        alloc: Global,
        out: &mut Vec<u8>,
        route: &Route,
        message: &[u8],
    ) -> Result<(), Memory>
        ensures held { OnOk result (held_in self.new.between.entries
            ≡ with_message (held_in self.old.between.entries) (whole_message route.now message.now)) }
        ensures lines { OnOk result (out.new.items
            ≡ out.old.items ++ message_ends (held_in self.new.between.entries) (whole_message route.now message.now)) }
    {
        self.take_request(alloc, route, message)?;
        self.take_answer(out, route, message)
    }

    /// Takes a message that may be a request for a part.
    fn take_request(&mut self, alloc: Global, route: &Route, message: &[u8]) -> Result<(), Memory>
        ensures { OnOk result (held_in self.new.between.entries
            ≡ all_with_asked (held_in self.old.between.entries) route.now (asked_by message.now)) }
    {
        match read_part_request(message) {
            Some(request) => self.ask(alloc, route, request),
            None => Ok(()),
        }
    }

    /// Takes a request for a part.
    fn ask(&mut self, alloc: Global, route: &Route, request: PartRequest) -> Result<(), Memory>
        ensures { OnOk result (held_in self.new.between.entries
            ≡ all_with_asked (held_in self.old.between.entries) route.now (Some request)) }
    {
        let pair = (route.source, route.destination);
        match self.between.get_mut(&pair) {
            Some(transfer) => {
                transfer.ask(request);
                return Ok(());
            }
            None => {}
        }
        let mut transfer = Transfer::new(alloc);
        transfer.ask(request);
        self.between.insert(pair, transfer)?;
        Ok(())
    }

    /// Takes a message that may be an answer with a part, and adds the lines of the record that it ends.
    fn take_answer(
        &mut self,
        out: &mut Vec<u8>,
        route: &Route,
        message: &[u8],
    ) -> Result<(), Memory>
        ensures held { OnOk result (held_in self.new.between.entries
            ≡ all_with_given (held_in self.old.between.entries) route.now (given_by message.now)) }
        ensures lines { OnOk result (out.new.items ≡ out.old.items
            ++ given_lines (held_in self.new.between.entries route.now.destination route.now.source)
            (given_by message.now)) }
    {
        let Ok(response) = read_response(message) else {
            return Ok(());
        };
        match read_answer_of(response.kind(), &response) {
            Ok(
                Answer::GetPdr {
                    next_data_transfer_handle,
                    part,
                    ..
                },
            ) => self.take_part(out, route, response.id(), next_data_transfer_handle, &part),
            _ => Ok(()),
        }
    }

    /// Takes a part, and adds the lines of the record that it ends.
    fn take_part(
        &mut self,
        out: &mut Vec<u8>,
        route: &Route,
        id: u8,
        next: u32,
        part: &RecordPart,
    ) -> Result<(), Memory>
        ensures held { OnOk result (held_in self.new.between.entries
            ≡ all_with_given (held_in self.old.between.entries) route.now (Some (given id next part.now))) }
        ensures lines { OnOk result (out.new.items ≡ out.old.items
            ++ ended_lines (held_in self.new.between.entries route.now.destination route.now.source) id part.now) }
    {
        let Some(transfer) = self.between.get_mut(&(route.destination, route.source)) else {
            return Ok(());
        };
        transfer.take(id, next, part)?;
        push_ended(out, transfer, id, part)
    }
}

/// The request for a part of a record that a message is.
fn read_part_request(message: &[u8]) -> Option<PartRequest>
    ensures { result ≡ asked_by message.now }
{
    let Ok(request) = read_request(message) else {
        return None;
    };
    match read_command(&request) {
        Ok(
            Command::GetPdr {
                data_transfer_handle,
                ..
            },
        ) => Some(PartRequest {
            id: request.id(),
            transfer: data_transfer_handle,
        }),
        _ => None,
    }
}

/// Adds the lines of a record of which this part is the last one.
fn push_ended(
    out: &mut Vec<u8>,
    transfer: &Transfer,
    id: u8,
    part: &RecordPart,
) -> Result<(), Memory>
    ensures { OnOk result (out.new.items ≡ out.old.items ++ ended_lines transfer.now id part.now) }
{
    if !transfer.is_ended_by(id, part.flag()) {
        return Ok(());
    }
    push_checked(out, transfer.as_slice(), part.transfer_crc())
}

/// Adds the lines of a record, where its checksum is this one; else that it is another.
fn push_checked(out: &mut Vec<u8>, bytes: &[u8], checksum: Option<u8>) -> Result<(), Memory>
    ensures { OnOk result (out.new.items ≡ out.old.items ++ checked_lines bytes.now checksum) }
{
    match checksum {
        None => Ok(()),
        Some(checksum) if crc8(bytes) == checksum => push_record(out, bytes),
        Some(_) => push_unread_line(out, bytes, "Crc"),
    }
}
