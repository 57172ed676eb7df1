//! One direction of a line that loses, repeats and delays packets.

use arrayvec::ArrayVec;
use mctp_packet::{MAX_PACKET_BYTES, Moment, Packets};
use std::alloc::Global;
use std::process::Abort;

/// Numbers that look like chance, the same for each seed, which is not 0.
#[derive(Drop)]
pub(super) struct Chance {
    state: u64,
}

impl Chance {
    pub(super) fn new(seed: u64) -> Chance {
        Chance { state: seed }
    }

    /// A number below 100.
    fn percent(&mut self) -> u64 {
        self.state ^= self.state << 13;
        self.state ^= self.state >> 7;
        self.state ^= self.state << 17;
        self.state % 100
    }
}

/// A packet on its way, and the millisecond at which it comes.
#[derive(Drop)]
struct Flight {
    due: u64,
    bytes: ArrayVec<u8, MAX_PACKET_BYTES>,
}

/// One direction of the line.
#[derive(Drop)]
pub(super) struct Line {
    flights: Vec<Flight>,
    chance: Chance,
    lost: u64,
}

impl Line {
    pub(super) fn new(alloc: Global, chance: Chance) -> Line {
        Line {
            flights: Vec::new(alloc),
            chance,
            lost: 0,
        }
    }

    /// How many packets were lost.
    pub(super) fn lost(&self) -> u64 {
        self.lost
    }

    /// Sends packets: of a hundred five are lost, five come twice, and five come 30 milliseconds later.
    pub(super) fn send(&mut self, rt: &impl Abort, now: Moment, packets: &Packets) {
        for index in 0..packets.len() {
            let bytes = packets.get(index).unwrap_or(&[]);
            let soon = now.get() + 1;
            match self.chance.percent() {
                0..=4 => self.lost = self.lost.wrapping_add(1),
                5..=9 => {
                    self.put(rt, soon, bytes);
                    self.put(rt, soon + 1, bytes);
                }
                10..=14 => self.put(rt, soon + 30, bytes),
                _ => self.put(rt, soon, bytes),
            }
        }
    }

    /// Puts a packet on its way.
    fn put(&mut self, rt: &impl Abort, due: u64, bytes: &[u8]) {
        let mut held = ArrayVec::new();
        held.try_extend_from_slice(bytes).expect(rt, "a packet");
        let flight = Flight { due, bytes: held };
        self.flights.push(flight).expect(rt, "memory");
    }

    /// The next packet that has come at this moment, if any has.
    pub(super) fn next(&mut self, now: Moment) -> Option<ArrayVec<u8, MAX_PACKET_BYTES>> {
        let at = self
            .flights
            .iter()
            .position(|flight| flight.due <= now.get())?;
        Some(self.flights.remove(at).bytes)
    }
}
