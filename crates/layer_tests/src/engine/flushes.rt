//! What was written before a run ends is flushed, once.

use crate::engine::engines::{End, Engine, expect_flushed};
use mctpctl_engines::LineKind;
use std::io;
use std::io::Read;
use std::test::Fail;

const ANSWER: &str = "010809c0010000020001\n";

#[test]
fn a_refused_line_is_flushed(rt: HostRuntime) -> Result<(), Fail> {
    let (alloc, engine) = (rt.alloc(), Engine::Answer);
    let input = engine.input(alloc, "0 010908c801800002\nx")?;
    let end = End::Line(2, LineKind::Number);
    expect_flushed(&rt, alloc, engine, input.as_bytes(), end, ANSWER);
    Ok(())
}

#[test]
fn a_passed_limit_is_flushed(rt: HostRuntime) -> Result<(), Fail> {
    let (alloc, engine) = (rt.alloc(), Engine::Answer);
    let first = engine.input(alloc, "0 010908c801800002\n")?;
    let reader = first.as_bytes().chain(io::repeat(b'\n'));
    expect_flushed(&rt, alloc, engine, reader, End::TooLarge, ANSWER);
    Ok(())
}
