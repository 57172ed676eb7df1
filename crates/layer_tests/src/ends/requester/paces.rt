//! A requester with a pace of its own: when it uses an instance ID again.

use super::{answer, eid, moment, open, receive};
use mctp_packet::Keep;
use pldm_requester::{Got, OpenFault, Pace, PaceFault, Requester, SettingFault, Timing};
use std::alloc::Global;
use std::process::Abort;

/// A requester for device 9 with one try of 5 milliseconds, a keeping time of a second and this pace.
fn paced(
    rt: &impl Abort,
    alloc: Global,
    lifetime: u64,
    window: u8,
    spread: bool,
) -> Result<Requester, SettingFault> {
    let timing = Timing {
        keep: Keep::new(1000).expect(rt, "a keeping time"),
        timeout: 5,
        tries: 1,
    };
    let pace = Pace {
        lifetime,
        window,
        spread,
        brief: false,
    };
    Requester::with_pace(alloc, eid(rt, 8), eid(rt, 9), timing, pace)
}

/// Opens a request after a tick.
fn open_ticked(
    rt: &impl Abort,
    requester: &mut Requester,
    milliseconds: u64,
) -> Result<(u64, u8, u8), OpenFault> {
    let now = moment(rt, requester, milliseconds);
    let _due = requester.tick(now);
    open(rt, requester, milliseconds)
}

/// Opens 32 requests: request 0 at 0, and each other its number of milliseconds after `start`. The first of these, as
/// many as are said, are answered at once.
fn open_and_answer_some(rt: &impl Abort, requester: &mut Requester, start: u8, answered: u8) {
    for id in 0..32u8 {
        let now = if id == 0 {
            0
        } else {
            u64::from(start) + u64::from(id)
        };
        assert_eq!(rt;
            open_ticked(rt, requester, now),
            Ok((u64::from(id), id, id % 8))
        );
        if id >= 1 && id <= answered {
            let got = receive(rt, requester, now, &answer(id % 8, id));
            assert_eq!(rt; got, Ok(Got::Answered(u64::from(id))));
        }
    }
}

#[test]
fn instance_id_is_free_once_enough_are_answered(rt: HostRuntime) {
    for (start, answered, refused, opened) in [
        (49, 4, 99, 100), // twice the lifetime has passed
        (49, 3, 1999, 2000), // too few are answered: twice the keeping time has to pass
        (18, 31, 1999, 2000), // the others are opened before the lifetime has passed
    ] {
        let mut requester = paced(&rt, rt.alloc(), 50, 4, false).expect(&rt, "a requester");
        open_and_answer_some(&rt, &mut requester, start, answered);
        assert_eq!(rt;
            open_ticked(&rt, &mut requester, refused),
            Err(OpenFault::IdInUse)
        );
        assert_eq!(rt; open_ticked(&rt, &mut requester, opened), Ok((32, 0, 0)));
    }
}

/// Opens requests at 0, each of which is answered.
fn open_at_once(rt: &impl Abort, requester: &mut Requester, count: u8) {
    for id in 0..count {
        assert!(rt; open(rt, requester, 0).is_ok());
        let got = receive(rt, requester, 0, &answer(id % 8, id));
        assert_eq!(rt; got, Ok(Got::Answered(u64::from(id))));
    }
}

#[test]
fn spread_requests_wait_for_the_lifetime(rt: HostRuntime) {
    for (window, count) in [(4, 16), (16, 16), (24, 8), (31, 1)] {
        let mut requester = paced(&rt, rt.alloc(), 50, window, true).expect(&rt, "a requester");
        open_at_once(&rt, &mut requester, count);
        assert_eq!(rt; open(&rt, &mut requester, 49), Err(OpenFault::IdInUse));
        assert_eq!(rt;
            open(&rt, &mut requester, 50),
            Ok((u64::from(count), count, count % 8))
        );
    }
}

/// Why no requester is made with this pace, if none is.
fn pace_fault(rt: &impl Abort, alloc: Global, lifetime: u64, window: u8) -> Option<SettingFault> {
    paced(rt, alloc, lifetime, window, false).err()
}

#[test]
fn paces(rt: HostRuntime) {
    for (lifetime, window, fault) in [
        (0, 33, PaceFault::NoLifetime),
        (1001, 33, PaceFault::LongLifetime),
        (4, 33, PaceFault::TooLate),
        (5, 33, PaceFault::Window),
        (5, 0, PaceFault::Window),
    ] {
        let refused = pace_fault(&rt, rt.alloc(), lifetime, window);
        assert_eq!(rt; refused, Some(SettingFault::Pace(fault)));
    }
    for (lifetime, window) in [(5, 1), (1000, 32)] {
        assert_eq!(rt; pace_fault(&rt, rt.alloc(), lifetime, window), None);
    }
}
