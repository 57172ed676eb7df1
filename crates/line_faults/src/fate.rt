//! What becomes of each frame.

ghost use Rattle.std.specs.Prelude.{◌≡◌, ◌≤◌};
ghost use Rattle.line_faults.specs.Fates.{fate_of, start_of};

use rand_core::SeedableRng;
use rand_core::utils::NextWord;
use rand_xoshiro::SplitMix64;

/// All of the frames, in percent.
pub const PERCENT: u64 = 100;

/// The longest delay of a frame, in milliseconds.
pub const MAX_DELAY: u64 = 60_000;

/// How often the frames of a line are lost, repeated and delayed.
#[derive(Clone, Copy, Debug, PartialEq, Eq)]
pub struct LineFaults {
    /// What the faults are chosen by.
    pub seed: u64,
    /// How many of the frames are lost, in percent.
    pub lose: u8,
    /// How many of those that are not lost come twice, in percent.
    pub repeat: u8,
    /// For how many milliseconds a frame is delayed at most.
    pub delay: u32,
}

/// What becomes of a frame.
#[derive(Clone, Copy, Debug, PartialEq, Eq)]
pub struct Fate {
    /// How often it comes: not at all, once or twice.
    pub copies: u8,
    /// For how many milliseconds it is delayed.
    pub delay: u64,
}

impl LineFaults {
    /// What becomes of the frame of this number. Three numbers of the generator SplitMix64 choose it: whether the frame
    /// is lost, whether it comes twice, and for how long it is delayed. Each frame has a generator of its own, begun
    /// with the first number of the seed's, plus the frame's number.
    ///
    /// A frame that is lost is not delayed. With `lose` at 0 none is lost, and with 100 all are; so for `repeat`.
    pub fn fate(&self, frame: u64) -> Fate
        ensures value { result ≡ fate_of self.now frame }
        ensures few { result.copies ≤ 2 }
        ensures soon { result.delay ≤ self.now.delay }
        ensures none_lost { self.now.lose ≡ 0 → 1 ≤ result.copies }
        ensures all_lost { PERCENT ≤ self.now.lose → result.copies ≡ 0 }
        ensures none_twice { self.now.repeat ≡ 0 → result.copies ≤ 1 }
        ensures all_twice { self.now.lose ≡ 0 → PERCENT ≤ self.now.repeat → result.copies ≡ 2 }
    {
        let mut chances = SplitMix64::seed_from_u64(self.start(frame));
        let lost: u64 = chances.next_word();
        let twice: u64 = chances.next_word();
        let delay: u64 = chances.next_word();
        if lost % PERCENT < u64::from(self.lose) {
            return Fate {
                copies: 0,
                delay: 0,
            };
        }
        Fate {
            copies: if twice % PERCENT < u64::from(self.repeat) {
                2
            } else {
                1
            },
            delay: delay % (u64::from(self.delay) + 1),
        }
    }

    /// What the generator of a frame is begun with.
    fn start(&self, frame: u64) -> u64
        ensures { result ≡ start_of self.now frame }
    {
        let first: u64 = SplitMix64::seed_from_u64(self.seed).next_word();
        first.wrapping_add(frame)
    }
}
