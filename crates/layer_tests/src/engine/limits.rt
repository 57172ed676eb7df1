//! Readers that never end are stopped.

use crate::engine::engines::{End, Engine};
use mctpctl_engines::LineKind;
use std::io;
use std::io::Read;
use std::test::Fail;

#[test]
fn endless_readers_are_stopped(rt: HostRuntime) -> Result<(), Fail> {
    let device = Engine::Run.input(rt.alloc(), "")?;
    let device = device.as_str();
    let long = End::Line(1, LineKind::LongLine);
    for (engine, first, byte, end) in [
        (Engine::Answer, "", b'x', End::TooLarge),
        (Engine::Answer, device, b'\n', End::TooLarge),
        (Engine::Answer, device, b'x', long),
        (Engine::Run, "", b'x', End::TooLarge),
        (Engine::Run, device, b'\n', End::TooLarge),
        (Engine::Run, device, b'x', End::TooLarge),
        (Engine::Show, "", b'\n', End::TooLarge),
        (Engine::Show, "", b'x', long),
    ] {
        let reader = first.as_bytes().chain(io::repeat(byte));
        let outcome = engine.run_over(rt.alloc(), reader)?;
        assert_eq!(rt; outcome.end, end, "{engine:?} {byte}");
        assert_eq!(rt; outcome.written.len(), 0, "{engine:?} {byte}");
    }
    Ok(())
}
