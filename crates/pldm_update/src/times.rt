//! How long each end waits, and how often it tries.

/// How often an end asks for the same thing before it gives it up. This profile's own number.
pub const MAX_ATTEMPTS: u8 = 10;

/// How long an end waits before it asks again where the other had not come so far, in milliseconds (DSP0267, "Timing
/// specification", FD_T2: 1 to 5 seconds).
pub const RETRY_TIME: u64 = 1_000;

/// How long the update agent may be silent between two commands before the update ends, in milliseconds (DSP0267,
/// "Timing specification", FD_T1: 60 to 120 seconds).
pub const IDLE_TIME: u64 = 90_000;

/// How long the device may be silent while it fetches, verifies or applies before the agent ends the update, in
/// milliseconds. This profile's own number.
pub const SILENCE: u64 = 60_000;
