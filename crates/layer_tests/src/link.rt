//! Tests of schedules and of runs of both ends over them, over public calls.

mod memory;
mod runs;
mod schedules;
