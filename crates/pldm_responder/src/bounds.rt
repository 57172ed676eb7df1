//! The most that a responding end keeps at a time: sources with kept answers, and open messages.

use crate::answering_end::{MAX_PENDING, OTHER_ENDPOINTS};

/// The most that a responder keeps at a time. What would pass a bound is refused, like a growth for which there is no
/// memory: nothing is performed, and nothing that is kept is dropped to make room.
#[derive(Clone, Copy, Debug, PartialEq, Eq)]
pub struct Bounds {
    /// How many sources have answers that are kept, at most one for each instance ID.
    pub sources: usize,
    /// How many messages of several packets have begun and not ended.
    pub open_messages: usize,
}

impl Bounds {
    /// Bounds that are never passed: every endpoint other than the own, with every tag.
    pub const UNREACHED: Bounds = Bounds {
        sources: OTHER_ENDPOINTS,
        open_messages: MAX_PENDING,
    };
}
