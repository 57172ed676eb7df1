//! Requests of any PLDM type: those that are not commands of this profile.

use super::{expect_packet, moment, receive, requester};
use mctp_packet::Reason;
use pldm_requester::{Got, OpenFault, Requester, Status};
use pldm_wire::{Kind, MAX_REQUEST_DATA};
use std::process::Abort;

/// Opens a request of type 5 with this data at 0: its number.
fn open(rt: &impl Abort, requester: &mut Requester, data: &[u8]) -> Result<u64, OpenFault> {
    let now = moment(rt, requester, 0);
    let kind = Kind {
        pldm_type: 5,
        command: 0x15,
    };
    assert!(rt; data.len() <= MAX_REQUEST_DATA);
    match requester.open_request(now, kind, data) {
        Ok(opened) => Ok(opened.number),
        Err(fault) => Err(fault),
    }
}

/// The packet of request 0 (DSP0236, "MCTP packet fields"): header version 1, to endpoint 9, from 8; SOM, EOM, sequence
/// number 0, TO 1 and tag 0. Its message (DSP0240, "PLDM message fields"): message type 1; Rq 1, D 0 and instance ID 0;
/// header version 0 and type 5; the command; the data.
const REQUEST: &[u8] = b"\x01\x09\x08\xc8\x01\x80\x05\x15\x01\x02\x03\x04\x05\x06\x07\x08";

/// A response to it with this instance ID, type and command: TO 0, Rq 0, and completion code 0.
fn answer(id: u8, pldm_type: u8, command: u8) -> [u8; 9] {
    [0x01, 0x08, 0x09, 0xc0, 0x01, id, pldm_type, command, 0x00]
}

/// Hands over what is no answer to request 0: of type 2, to command 0x16, and of instance ID 1.
fn answer_in_vain(rt: &impl Abort, requester: &mut Requester) {
    for bytes in [answer(0, 2, 0x15), answer(0, 5, 0x16), answer(1, 5, 0x15)] {
        let got = receive(rt, requester, 0, &bytes);
        assert_eq!(rt; got, Ok(Got::Dropped(Reason::NotMine)));
        assert_eq!(rt; requester.status(0), Some(Status::Open));
    }
}

#[test]
fn request_of_type_5_is_written_and_answered(rt: HostRuntime) {
    let mut requester = requester(&rt, rt.alloc());
    let opened = open(&rt, &mut requester, &[1, 2, 3, 4, 5, 6, 7, 8]);
    assert_eq!(rt; opened, Ok(0));
    expect_packet(&rt, &requester, REQUEST);
    answer_in_vain(&rt, &mut requester);
    let got = receive(&rt, &mut requester, 0, &answer(0, 5, 0x15));
    assert_eq!(rt; got, Ok(Got::Answered(0)));
    assert_eq!(rt;
        requester.status(0),
        Some(Status::Answered(b"\x01\x00\x05\x15\x00"))
    );
}

/// Checks the packets of a message of 65 bytes: the first has SOM and 64 of them, the second EOM, sequence number 1 and
/// the last one (DSP0236, "Packetizing a message").
fn expect_two_packets(rt: &impl Abort, requester: &Requester) {
    let mut first = [7; 68];
    first[..8].copy_from_slice(b"\x01\x09\x08\x88\x01\x80\x05\x15");
    let packets = requester.packets(0).expect(rt, "packets");
    assert_eq!(rt; packets.get(0), Some(&first[..]));
    assert_eq!(rt; packets.get(1), Some(&b"\x01\x09\x08\x58\x07"[..]));
    assert!(rt; packets.get(2).is_none());
}

#[test]
fn long_request_has_two_packets(rt: HostRuntime) {
    let mut requester = requester(&rt, rt.alloc());
    assert_eq!(rt; open(&rt, &mut requester, &[7; 61]), Ok(0));
    expect_two_packets(&rt, &requester);
}

#[test]
fn ninth_open_request_of_type_5_has_no_tag(rt: HostRuntime) {
    let mut requester = requester(&rt, rt.alloc());
    for number in 0..8 {
        assert_eq!(rt; open(&rt, &mut requester, &[]), Ok(number));
    }
    assert_eq!(rt; open(&rt, &mut requester, &[]), Err(OpenFault::TagInUse));
}
