//! The two ends of an update, with a flash in memory, and a millisecond of one of them.

use crate::ends::update::line::Line;
use bus_endpoint::BusEndpoint;
use lamp_board::Dimmer;
use mctp_packet::{Body, Eid, Keep, Moment, split};
use pldm_endpoint::Endpoint;
use pldm_requester::Timing;
use pldm_responder::{Bounds, ResponderSettings};
use pldm_terminus::Terminus;
use pldm_update::{Component, DeviceIdentifiers, FIRMWARE_UPDATE, VersionString};
use pldm_wire::PassThrough;
use std::alloc::Global;
use std::process::Abort;
use update_line::{AgentEnd, FirmwareEnd, FirmwareSettings, Flash, Offer, Reply, UpdateEnd};

/// How many packets an end takes in a millisecond.
const MOST_PACKETS: u8 = 20;

/// The component.
const BOARD: Component = Component {
    classification: 10,
    identifier: 0x1234,
    index: 0,
};

/// A flash with a slot for the image that comes, and one for the active one.
#[derive(Drop)]
pub(super) struct TwoSlots {
    coming: Vec<u8>,
    pub(super) active: Vec<u8>,
}

impl Flash for TwoSlots {
    ghost use Rattle.std.specs.Prelude.{⊤};

    ghost acted = { λ _ _ _ _. ⊤ };

    fn begin(&mut self, component: Component, _size: u32) -> bool {
        self.coming.clear();
        component == BOARD
    }

    fn store(&mut self, offset: u32, piece: &[u8]) -> bool {
        self.coming.len() == offset as usize && self.coming.extend_from_slice(piece).is_ok()
    }

    fn verify(&mut self) -> bool {
        true
    }

    fn apply(&mut self) -> bool {
        true
    }

    fn activate(&mut self) -> bool {
        self.active.clear();
        self.active.extend_from_slice(&self.coming).is_ok()
    }

    fn abandon(&mut self) -> bool {
        self.coming.clear();
        true
    }

    fn abandon_update(&mut self) -> bool {
        self.coming.clear();
        true
    }
}

/// The end of this endpoint ID, which asks that peer and hands requests of firmware update on as bytes.
fn end(rt: &impl Abort, alloc: Global, own: u8, peer: u8) -> Terminus {
    let own = Eid::new(own).expect(rt, "an endpoint ID");
    let peer = Eid::new(peer).expect(rt, "an endpoint ID");
    let keep = Keep::new(200).expect(rt, "a keeping time");
    let handed_on = PassThrough {
        pldm_types: 1 << FIRMWARE_UPDATE,
        unknown_commands: false,
    };
    let settings = ResponderSettings::each_for(keep);
    let endpoint = Endpoint::new(alloc, Some(own), settings, handed_on, Bounds::UNREACHED, 1);
    let answering = BusEndpoint::new(alloc, endpoint, None).expect(rt, "memory");
    let answering = answering.expect(rt, "an endpoint");
    let timing = Timing {
        keep,
        timeout: 60,
        tries: 3,
    };
    let rest = Moment::new(0).expect(rt, "a moment");
    Terminus::new(alloc, answering, peer, timing, rest)
}

/// The version of the image.
fn version(rt: &impl Abort) -> VersionString {
    VersionString::new(1, b"v2").expect(rt, "a version")
}

/// What the agent offers.
pub(super) fn offers<'a>(rt: &impl Abort, alloc: Global, image: &'a [u8]) -> Vec<Offer<'a>> {
    let mut offers = Vec::new(alloc);
    let offer = Offer {
        component: BOARD,
        comparison_stamp: 2,
        option_flags: 0,
        version: version(rt),
        image,
    };
    offers.push(offer).expect(rt, "memory");
    offers
}

/// An agent at endpoint 8, for the device at 9.
pub(super) fn agent_end<'a>(
    rt: &impl Abort,
    alloc: Global,
    offers: &'a [Offer<'a>],
) -> AgentEnd<'a> {
    AgentEnd::new(end(rt, alloc, 8, 9), offers, version(rt), 0).expect(rt, "an agent")
}

/// A device at endpoint 9, with room for so many bytes.
pub(super) fn device_end(
    rt: &impl Abort,
    alloc: Global,
    room: u32,
) -> FirmwareEnd<Dimmer, TwoSlots> {
    let settings = FirmwareSettings {
        agent: Eid::new(8).expect(rt, "an endpoint ID"),
        component: BOARD,
        room,
    };
    let flash = TwoSlots {
        coming: Vec::new(alloc),
        active: Vec::new(alloc),
    };
    let identifiers = DeviceIdentifiers::new(2, &[9; 16]).expect(rt, "identifiers");
    FirmwareEnd::new(
        alloc,
        end(rt, alloc, 9, 8),
        Dimmer::new(alloc).expect(rt, "memory"),
        flash,
        settings,
        identifiers,
        VersionString::new(1, b"v1").expect(rt, "a version"),
    )
}

/// A millisecond of an end: first what has come, then what it asks or asks again.
pub(super) fn pass(
    rt: &impl Abort,
    now: Moment,
    end: &mut impl UpdateEnd,
    from: &mut Line,
    to: &mut Line,
) {
    for _ in 0..MOST_PACKETS {
        let Some(packet) = from.next(now) else {
            break;
        };
        let mut reply = Body::new();
        let sent = end.receive(now.get(), &packet, &mut reply);
        if let Reply::Message(route) = sent.expect(rt, "memory") {
            to.send(rt, now, &split(&route, &reply).expect(rt, "packets"));
        }
    }
    let sending = end.pass(now.get()).expect(rt, "memory");
    for number in &sending.again {
        to.send(rt, now, end.packets(*number).expect(rt, "packets"));
    }
    if let Some(number) = sending.opened {
        to.send(rt, now, end.packets(number).expect(rt, "packets"));
    }
}
