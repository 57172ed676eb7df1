//! The engine of `mctpctl show --decode`.

ghost use Rattle.std.specs.Prelude.{◌≡◌, ◌++◌, OnOk};
ghost use Rattle.mctpctl_decode.specs.HeldTransfers.{held_in, held_text};
ghost use Rattle.mctpctl_decode.specs.TransferTexts.{decoded_text};
ghost use Rattle.mctpctl_decode.specs.Transfers.{none_between, with_message};
ghost use Rattle.mctpctl_engines.specs.MessageForms.{whole_message};
ghost use Rattle.mctpctl_engines.specs.ShowText.{seen_run, show_text};
ghost use Rattle.mctpctl_input.specs.Ports.{BothWork, ReportsFailedPorts};
ghost use Rattle.mctpctl_engines.specs.WholeRuns.{WritesAll, WritesFront, WritesRead};

use crate::message_line::push_decoded_line;
use crate::transfers::Transfers;
use mctp_packet::{Memory, Route};
use mctpctl_engines::{MessageForm, show_as};
use mctpctl_input::{Binding, EngineFault, Port};
use std::alloc::Global;
use std::io::{Read, Write};

/// The fields by name, as `mctpctl show --decode` writes a message: see [`push_decoded_line`]. Below an answer to
/// GetPDR that has the last part of a record come the lines of that record, of which the other parts came before.
#[derive(Drop)]
pub struct ByName {
    transfers: Transfers,
}

impl ByName {
    /// A form that has seen no message.
    pub fn new(alloc: Global) -> ByName
        ensures { held_in result.transfers.between.entries ≡ none_between }
    {
        ByName {
            transfers: Transfers::new(alloc),
        }
    }
}

impl MessageForm for ByName {
    ghost use Rattle.mctpctl_decode.specs.HeldTransfers.{looks_back};
    ghost use Rattle.mctpctl_decode.specs.Transfers.{Between};

    ghost line = { decoded_text };

    ghost Held = { Between };

    ghost held_of = { λ form. held_in form.transfers.between.entries };

    ghost none_held = { none_between };

    ghost held_with = { with_message };

    ghost held_line = { held_text };

    fn push_line(
        &mut self,
        alloc: Global,
        out: &mut Vec<u8>,
        route: Route,
        message: &[u8],
    ) -> Result<(), Memory>
        ensures line { OnOk result (out.new.items ≡ out.old.items
            ++ held_text (held_in self.old.transfers.between.entries) (whole_message route message.now)) }
        ensures held { OnOk result (held_in self.new.transfers.between.entries
            ≡ with_message (held_in self.old.transfers.between.entries) (whole_message route message.now)) }
    {
        push_decoded_line(out, message)?;
        self.transfers.take(alloc, out, &route, message)
    }

    ghost looks_back = { looks_back };
}

/// Shows a capture as `show_all` does, with the fields of each command and answer by name in place of a
/// message's bytes: see [`ByName`]. What it writes at each fault is as there. It holds what that does, and
/// for each two endpoints between which GetPDR was asked at most the bytes of the longest record.
pub fn decode_all<R: Read, W: Write>(
    alloc: Global,
    binding: Option<Binding>,
    reader: &mut Port<R>,
    writer: &mut Port<W>,
) -> Result<(), EngineFault>
    requires works { BothWork reader.old writer.old }
    ensures text { WritesAll R.remaining W.contents (show_text binding decoded_text) reader.old writer.old writer.new
        result }
    ensures at_read { WritesRead R.remaining W.contents (seen_run binding decoded_text) reader.old reader.new
        writer.old writer.new result }
    ensures at_memory { WritesFront R.remaining W.contents (seen_run binding decoded_text) reader.old writer.old
        writer.new result }
    ensures ports { ReportsFailedPorts EngineFault.Read EngineFault.Write result reader.new writer.new }
{
    show_as(alloc, ByName::new(alloc), binding, reader, writer)
}
