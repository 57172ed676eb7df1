//! A firmware update between two ends that answer and ask, over a line that loses, repeats and delays packets.

use crate::ends::update::ends::{agent_end, device_end, offers, pass};
use crate::ends::update::line::{Chance, Line};
use mctp_packet::Moment;
use pldm_update::{AgentStage, Stage};
use std::alloc::Global;
use std::process::Abort;

mod ends;
mod line;

/// The bytes of the image: the last piece is shorter.
const IMAGE_BYTES: u32 = 65_000;

/// For how many milliseconds the ends have time.
const MOST_TURNS: u64 = 60_000;

/// Whether this image comes whole, over lines that lose packets as the seed says.
fn comes_whole(rt: &impl Abort, alloc: Global, image: &[u8], seed: u64) -> bool {
    let offers = offers(rt, alloc, image);
    let mut agent = agent_end(rt, alloc, &offers);
    let mut device = device_end(rt, alloc, IMAGE_BYTES);
    let mut to_agent = Line::new(alloc, Chance::new(seed));
    let mut to_device = Line::new(alloc, Chance::new(seed.wrapping_add(100)));
    for turn in 1..MOST_TURNS {
        if agent.stage() == AgentStage::Over(true) {
            break;
        }
        let now = Moment::new(turn).expect(rt, "a moment");
        pass(rt, now, &mut device, &mut to_device, &mut to_agent);
        pass(rt, now, &mut agent, &mut to_agent, &mut to_device);
    }
    let is_over = agent.stage() == AgentStage::Over(true) && device.machine.stage() == Stage::Idle;
    let is_same = device.flash.active.as_slice() == image;
    is_over && is_same && to_agent.lost() > 0 && to_device.lost() > 0
}

#[test]
fn image_comes_whole_over_a_lossy_line(rt: HostRuntime) {
    let mut image = Vec::new(rt.alloc());
    for byte in 0..IMAGE_BYTES {
        image.push((byte % 251) as u8).expect(&rt, "memory");
    }
    for seed in 1..11 {
        let is_whole = comes_whole(&rt, rt.alloc(), &image, seed);
        assert!(rt; is_whole, "seed {seed}");
    }
}
