//! One port over a reader or a writer that fails.

use crate::engine::fakes::{FailsAt, PieceReader, PieceWriter};
use mctpctl_engines::Port;
use std::io::{Read, Write};
use std::test::Fail;

/// A read that fails is reported at once and not tried again, though the next one would succeed.
#[test]
fn a_read_that_fails_marks_the_port(rt: HostRuntime) -> Result<(), Fail> {
    let inner = PieceReader {
        bytes: b"abc",
        piece: 2,
    };
    let mut port = Port::new(FailsAt::once(inner, 1));
    let mut buf = [0u8; 8];
    assert_eq!(rt; port.read(&mut buf)?, 2);
    assert!(rt; !port.failed());
    assert!(rt; port.read(&mut buf).is_err());
    assert!(rt; port.failed());
    assert_eq!(rt; port.read(&mut buf)?, 1);
    assert!(rt; port.failed());
    assert_eq!(rt; port.into_inner().calls, 3);
    Ok(())
}

/// A write has all bytes, and a flush reaches the writer.
#[test]
fn writes_and_flushes_are_passed_on(rt: HostRuntime) -> Result<(), Fail> {
    let mut port = Port::new(FailsAt::once(Vec::new(rt.alloc()), 9));
    assert_eq!(rt; port.write(b"abc")?, 3);
    port.write_all(b"defg")?;
    let inner = port.into_inner();
    assert_eq!(rt; inner.inner.as_slice(), b"abcdefg".as_slice());
    assert_eq!(rt; inner.calls, 2);
    let mut port = Port::new(PieceWriter::new(Vec::new(rt.alloc()), 1));
    port.write_all(b"abc")?;
    port.flush()?;
    assert!(rt; !port.failed());
    let inner = port.into_inner();
    assert_eq!(rt; inner.taken.as_slice(), b"abc".as_slice());
    assert_eq!(rt; inner.flushes, 1);
    Ok(())
}

/// A write that fails is reported at once and not tried again, though the next one would succeed.
#[test]
fn a_write_is_not_tried_again(rt: HostRuntime) -> Result<(), Fail> {
    let inner = PieceWriter::new(Vec::new(rt.alloc()), 1);
    let mut port = Port::new(FailsAt::once(inner, 2));
    assert!(rt; port.write_all(b"abc").is_err());
    assert!(rt; port.failed());
    port.flush()?;
    assert!(rt; port.failed());
    let inner = port.into_inner();
    assert_eq!(rt; inner.inner.taken.as_slice(), b"ab".as_slice());
    assert_eq!(rt; inner.calls, 4);
    Ok(())
}
