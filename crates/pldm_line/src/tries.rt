//! The tries of a query: when its frame went out last, and when it goes out again.

use mctp_packet::Moment;

/// The tries of a query so far.
#[derive(Clone, Copy, Debug)]
pub(crate) struct Tries {
    /// For how many milliseconds each of them waits for an answer.
    again: u32,
    /// How many there may be.
    most: u8,
    /// When the last one began.
    last: Moment,
    /// How many there were.
    count: u8,
}

impl Tries {
    ghost use Rattle.std.specs.Prelude.{◌≡◌, ◌<◌, ◌&&◌, true, nat_lt};
    ghost use Rattle.pldm_line.specs.QueryTries.{is_over, is_past, tried_again, tries_from};

    /// The first one, that begins now.
    pub(crate) fn new(again: u32, most: u8, now: Moment) -> Tries
        ensures { result ≡ tries_from again most now }
    {
        Tries {
            again,
            most,
            last: now,
            count: 1,
        }
    }

    /// Whether the time of the last one has passed.
    fn is_past(&self, now: Moment) -> bool
        ensures { result ≡ is_past self.now now }
    {
        self.last.get() + u64::from(self.again) <= now.get()
    }

    /// Whether there is to be another one now.
    pub(crate) fn is_next(&self, now: Moment) -> bool
        ensures { result ≡ (is_past self.now now && nat_lt self.now.count self.now.most) }
    {
        self.is_past(now) && self.count < self.most
    }

    /// Whether the time of all has passed.
    pub(crate) fn is_over(&self, now: Moment) -> bool
        ensures { result ≡ is_over self.now now }
    {
        self.is_past(now) && self.most <= self.count
    }

    /// Notes that another one begins now, where `begins`.
    pub(crate) fn take(&mut self, begins: bool, now: Moment)
        requires { begins ≡ true → self.old.count < self.old.most }
        ensures { self.new ≡ tried_again begins self.old now }
    {
        if begins {
            self.last = now;
            self.count += 1;
        }
    }
}
