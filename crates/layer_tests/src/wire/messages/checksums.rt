//! Checksums of bytes whose CRC-8 is known.

use super::*;

/// A record's first bytes: its header alone, of record 1 with no data.
const HEADER: [u8; 10] = [0x01, 0x00, 0x00, 0x00, 0x01, 0x01, 0x00, 0x00, 0x22, 0x01];

#[test]
fn bytes_have_their_checksum(rt: HostRuntime) {
    expect_eq(&rt, crc8(b"123456789"), 0xf4, "digits");
    expect_eq(&rt, crc8(&HEADER), 0xa0, "the header");
    expect_eq(&rt, crc8(&[]), 0, "no bytes");
}

#[test]
fn zeros_after_the_header_count(rt: HostRuntime) {
    let mut record = [0; 300];
    record[..HEADER.len()].copy_from_slice(&HEADER);
    expect_eq(&rt, crc8(&record), 0xf5, "the header and zeros");
}
