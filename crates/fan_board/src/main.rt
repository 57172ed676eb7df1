//! A board with two fans behind an MCTP endpoint: it reads a capture, a line `MS HEX` for each packet, and writes what
//! goes out, as `mctpctl answer` does.
#![tactic(auto)]

mod board;
mod packet_line;
mod service;

ghost use Rattle.std.specs.FinMap as map;
ghost use Rattle.std.specs.Prelude.{◌≡◌};
ghost use Rattle.pldm_wire.specs.declared.assigned.TheConstants.{INSTANCE_IDS};
ghost use Rattle.pldm_wire.specs.declared.restart_policy.RestartPolicy.TheVariants.{All};
ghost use Rattle.pldm_endpoint.specs.TwoSteps.{held_in};
ghost use Rattle.pldm_responder.specs.ResponderStates.{IsHeld, held_at_first};

use crate::board::Board;
use crate::packet_line::{LineFault, TimedPacket, read_line};
use crate::service::serve;
use mctp_packet::{Eid, Keep};
use pldm_endpoint::Endpoint;
use pldm_responder::{Bounds, Outcome, ResponderSettings};
use pldm_wire::PassThrough;
use std::alloc::Global;

/// The endpoint ID of the board.
const OWN: u8 = 10;

/// For how long an answer is kept for copies of its request, in milliseconds.
const KEEP: u32 = 1_000;

/// The answers to two sources are kept, and two messages of several packets may be open.
const BOUNDS: Bounds = Bounds {
    sources: 2,
    open_messages: 2,
};

/// At most one command is pending: the board does one thing at a time.
const COMMANDS: usize = 1;

/// The requests of PLDM type 63 (OEM) are handed on to the board as bytes.
const OEM: PassThrough = PassThrough {
    pldm_types: 1 << 63,
    unknown_commands: false,
};

fn main(rt: HostRuntime) -> anyhow::Result<()> {
    let mut board = Board::new();
    let mut endpoint = new_endpoint(rt.alloc());
    for line in rt.lines(rt.alloc()) {
        let line = line?;
        if let Some(packet) = read_line(rt.alloc(), line.as_bytes())? {
            handle(&rt, &mut endpoint, &mut board, &packet)?;
        }
    }
    Ok(())
}

/// The endpoint in front of the board.
fn new_endpoint(alloc: Global) -> Endpoint
    ensures held { IsHeld (held_in result) (held_at_first OWN All INSTANCE_IDS KEEP tt) }
    ensures handed_on { result.handed_on ≡ OEM }
    ensures bounds { result.end.bounds ≡ BOUNDS }
    ensures max_pending { result.max_pending ≡ COMMANDS }
    ensures idle { result.pending ≡ map.empty }
{
    let (Some(own), Some(keep)) = (Eid::new(OWN), Keep::new(KEEP)) else {
        unreachable!();
    };
    Endpoint::new(
        alloc,
        Some(own),
        ResponderSettings::each_for(keep),
        OEM,
        BOUNDS,
        COMMANDS,
    )
}

/// Serves a packet and writes what becomes of it: `drop NAME`, `partial`, `lost` where there was no room for it, or
/// the answer's packets in hex, one a line.
fn handle(
    rt: &HostRuntime,
    endpoint: &mut Endpoint,
    board: &mut Board,
    packet: &TimedPacket,
) -> anyhow::Result<()>
    requires { endpoint.old.pending ≡ map.empty }
    ensures { endpoint.new.pending ≡ map.empty }
{
    if packet.moment.get() < endpoint.last_moment().get() {
        return Err(LineFault::BackInTime.into());
    }
    match serve(endpoint, board, packet.moment, &packet.bytes) {
        Ok(Outcome::Dropped(reason)) => println!(rt; "drop {}", reason.name())?,
        Ok(Outcome::Partial) => println!(rt; "partial")?,
        Ok(Outcome::Answered { packets, .. }) => {
            for index in 0..packets.len() {
                if let Some(packet) = packets.get(index) {
                    println!(rt; "{}", hex::encode(rt.alloc(), packet)?)?;
                }
            }
        }
        Err(_) => println!(rt; "lost")?,
    }
    Ok(())
}
