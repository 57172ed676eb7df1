//! The clock of a serial line's end: readings in milliseconds, and the moments that they are.

ghost use Rattle.std.specs.Prelude.{◌≡◌, ◌≤◌, ℕ, List, [], ◌∷◌, Option, None, Some, IfOk, OnErr};
ghost use Rattle.std.specs.Io.KnownBytes.{Consumes};
ghost use Rattle.std.specs.Time.{instant_nanos};
ghost use Rattle.mctp_packet.specs.Ids.{IsMoment};
ghost use Rattle.pldm_line.specs.Serving.{moment_after};
ghost use Rattle.pldm_line.specs.Clocks.{HasNoMore, later_readings, milliseconds_between, latest_of, start_of};

use mctp_packet::{MAX_MOMENT, Moment};
use std::io;
use std::io::{Error, ErrorKind};
use std::time::{Clock, Instant};

/// The moment of a reading of the clock: the later of the last one and the reading, which is cut at the greatest
/// moment.
pub fn moment_after(last: Moment, reading: u64) -> Moment
    ensures value { result ≡ moment_after last reading }
    ensures range { IsMoment result }
    ensures forward { last ≤ result }
{
    let latest = last.get().max(reading.min(MAX_MOMENT));
    Moment::new(latest).unwrap()
}

/// Readings of a clock, in milliseconds. They may go back. `to_come` names those that are to come, where
/// they are known.
pub trait Ticks {
    // the readings to come, where they are known
    ghost to_come: { Self → Option (List ℕ) };

    /// The next reading. Where the readings are known, there is an error only after the last one.
    fn tick(&mut self) -> io::Result<u64>
        ensures reading { IfOk result (λ n. Consumes (to_come self.old) (to_come self.new) (n ∷ [])) }
        ensures none { OnErr result (HasNoMore (to_come self.old)) };
}

/// The milliseconds since a start, by the monotonic clock of the system.
#[derive(Drop)]
pub struct SystemTicks<'c, C: Clock> {
    clock: &'c C,
    start: Instant,
    /// What the clock said last.
    latest: Instant,
}

impl<'c, C: Clock> SystemTicks<'c, C> {
    /// Starts now.
    ///
    /// # Errors
    ///
    /// That of the clock.
    pub fn new(clock: &'c C) -> io::Result<SystemTicks<'c, C>>
        ensures { IfOk result (λ ticks. latest_of ticks ≡ start_of ticks) }
    {
        let start = Instant::now(clock)?;
        Ok(SystemTicks {
            clock,
            start,
            latest: start,
        })
    }
}

impl<C: Clock> Ticks for SystemTicks<'_, C> {
    ghost to_come = { λ _. None };

    /// The milliseconds from the start, which stays, to what the clock says now.
    fn tick(&mut self) -> io::Result<u64>
        ensures reading { IfOk result (λ n. Consumes None None (n ∷ [])) }
        ensures none { OnErr result (HasNoMore None) }
        ensures start { start_of self.new ≡ start_of self.old }
        ensures since { IfOk result (λ n. n ≡ milliseconds_between (start_of self.old) (latest_of self.new)) }
    {
        self.latest = Instant::now(self.clock)?;
        Ok(milliseconds_between(self.start, self.latest))
    }
}

/// The whole milliseconds from one instant to another: none where that is before it.
fn milliseconds_between(start: Instant, now: Instant) -> u64
    ensures { result ≡ milliseconds_between (instant_nanos start) (instant_nanos now) }
{
    u64::try_from(now.duration_since(start).as_millis()).unwrap_or(u64::MAX)
}

/// Readings that are given, the next one first. After the last there is an error.
#[derive(Drop)]
pub struct ListTicks<'a> {
    /// The readings to come.
    pub readings: &'a [u64],
}

impl Ticks for ListTicks<'_> {
    ghost to_come = { λ ticks. Some ticks.readings.now };

    fn tick(&mut self) -> io::Result<u64> {
        let Some((first, rest)) = self.readings.split_first() else {
            return Err(Error::from(ErrorKind::UnexpectedEof));
        };
        self.readings = rest;
        Ok(*first)
    }
}

/// Readings that are so many milliseconds later than those of another clock.
#[derive(Drop)]
pub struct LaterTicks<T> {
    /// The other clock.
    pub ticks: T,
    /// How much later.
    pub by: u64,
}

impl<T: Ticks> Ticks for LaterTicks<T> {
    ghost to_come = { λ ticks. later_readings ticks.by (T.to_come ticks.ticks) };

    /// The next reading; the largest one where that is too large.
    fn tick(&mut self) -> io::Result<u64>
        ensures reading { IfOk result (λ n. Consumes (later_readings self.old.by (T.to_come self.old.ticks))
            (later_readings self.new.by (T.to_come self.new.ticks)) (n ∷ [])) }
        ensures none { OnErr result (HasNoMore (later_readings self.old.by (T.to_come self.old.ticks))) }
        ensures by { self.new.by ≡ self.old.by }
    {
        let reading = self.ticks.tick()?;
        Ok(reading.saturating_add(self.by))
    }
}
