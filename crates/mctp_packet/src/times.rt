//! Moments, and the time for which an answer is kept, both in milliseconds.

ghost use Rattle.std.specs.Prelude.{◌≡◌, ℕ, ◌↔◌, IsSome, IfSome};
ghost use Rattle.mctp_packet.specs.Ids.{IsMoment, IsKeep};

use crate::{MAX_KEEP, MAX_MOMENT};
use std::marker::Model;

/// A moment in milliseconds on the clock that is handed in: 0 to [`MAX_MOMENT`].
#[derive(Clone, Copy, Debug, PartialEq, Eq, PartialOrd, Ord)]
pub struct Moment {
    since_start: u64,
}

impl Model for Moment {
    ghost Value = { ℕ };

    ghost view = { λ moment. moment.since_start };

    ghost invariant = { λ moment. IsMoment moment.since_start };

    ghost inverse = { λ n. record { since_start = n } };
}

impl Moment {
    /// The moment after this many milliseconds, where they are at most [`MAX_MOMENT`].
    pub fn new(milliseconds: u64) -> Option<Moment>
        ensures some { IsSome result ↔ IsMoment milliseconds }
        ensures value { IfSome result (λ moment. moment ≡ milliseconds) }
        ensures range { IfSome result IsMoment }
    {
        if milliseconds <= MAX_MOMENT {
            Some(Moment {
                since_start: milliseconds,
            })
        } else {
            None
        }
    }

    /// Its milliseconds, at most [`MAX_MOMENT`].
    pub fn get(self) -> u64
        ensures value { result ≡ self }
        ensures range { IsMoment self }
    {
        self.since_start
    }
}

/// For how many milliseconds an answer is kept and a packet may live: 1 to 60,000. This profile's
/// own number, one for both ends of a link.
#[derive(Clone, Copy, Debug, PartialEq, Eq, PartialOrd, Ord)]
pub struct Keep {
    milliseconds: u32,
}

impl Model for Keep {
    ghost Value = { ℕ };

    ghost view = { λ keep. keep.milliseconds };

    ghost invariant = { λ keep. IsKeep keep.milliseconds };

    ghost inverse = { λ n. record { milliseconds = n } };
}

impl Keep {
    /// This many milliseconds, where they are 1 to 60,000.
    pub fn new(milliseconds: u32) -> Option<Keep>
        ensures some { IsSome result ↔ IsKeep milliseconds }
        ensures value { IfSome result (λ keep. keep ≡ milliseconds) }
        ensures range { IfSome result IsKeep }
    {
        if (1..=MAX_KEEP).contains(&milliseconds) {
            Some(Keep { milliseconds })
        } else {
            None
        }
    }

    /// Its milliseconds, 1 to 60,000.
    pub fn get(self) -> u32
        ensures value { result ≡ self }
        ensures range { IsKeep self }
    {
        self.milliseconds
    }
}
