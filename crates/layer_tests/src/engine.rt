//! Tests of `answer`, `run` and `show` over readers and writers, over public calls.

mod engines;
mod failing_ports;
mod fakes;
mod flushes;
mod limits;
mod ports;
