//! Faults of a serial line, by a seed: which of its frames are lost, which come twice, and after how many milliseconds.
//! The same seed and the same frames give the same faults.
#![tactic(auto)]

mod fate;
mod faulty;
mod live;
mod spelling;

pub use fate::{Fate, LineFaults, MAX_DELAY, PERCENT};
pub use faulty::{FaultyFrames, FaultyPacket};
pub use live::{FaultyReader, FaultyWriter};
pub use spelling::{FaultsPart, MAX_SEED, read_faults};
