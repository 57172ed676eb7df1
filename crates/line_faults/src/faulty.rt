//! The frames of one direction of a line, among which faults are made.

use crate::fate::{Fate, LineFaults};
use mctp_serial::{FrameEvent, FrameReader, PacketBytes};
use std::marker::Model;

/// The packet of a frame that ended, and what becomes of it.
#[derive(Clone, Debug, Drop)]
pub struct FaultyPacket {
    /// The packet.
    pub packet: PacketBytes,
    /// What becomes of its frame.
    pub fate: Fate,
}

/// Finds the frames in the bytes of one direction of a line, and says what becomes of each. The frames that come in
/// have the even numbers, those that go out the odd ones. Bytes that are no frame have no number.
#[derive(Debug, Drop)]
pub struct FaultyFrames {
    faults: LineFaults,
    frames: FrameReader,
    /// The number of the next frame.
    number: u64,
}

impl Model for FaultyFrames {
    ghost use Rattle.line_faults.specs.Faulty.{FaultyState};

    ghost Value = { FaultyState };

    ghost view = { λ f. record { faults = f.faults; reading = f.frames; number = f.number } };
}

impl FaultyFrames {
    ghost use Rattle.std.specs.Prelude.{◌≡◌, option_map};
    ghost use Rattle.line_faults.specs.Faulty.{begun, left, passed, passed_by};

    /// Those that come in.
    pub fn coming_in(faults: LineFaults) -> FaultyFrames
        ensures { result ≡ begun faults 0 }
    {
        FaultyFrames {
            faults,
            frames: FrameReader::new(),
            number: 0,
        }
    }

    /// Those that go out.
    pub fn going_out(faults: LineFaults) -> FaultyFrames
        ensures { result ≡ begun faults 1 }
    {
        FaultyFrames {
            faults,
            frames: FrameReader::new(),
            number: 1,
        }
    }

    /// Takes a byte. Where it ends the frame of a packet, that is returned with what becomes of it.
    pub fn take(&mut self, byte: u8) -> Option<FaultyPacket>
        ensures value { option_map passed_by result ≡ passed self.old byte }
        ensures next { self.new ≡ left self.old byte }
    {
        match self.frames.take(byte) {
            FrameEvent::Packet(packet) => {
                let fate = self.faults.fate(self.number);
                self.number = self.number.wrapping_add(2);
                Some(FaultyPacket { packet, fate })
            }
            FrameEvent::Nothing | FrameEvent::Dropped(_) => None,
        }
    }
}
