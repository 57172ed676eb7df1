//! Schedules of requesters and a device, and what a run of each reports. What comes of each step, and how each request
//! ends, are rows over the program: `tests/rows_worked.py`.

use crate::example_device::description;
use bumpalo::Bump;
use lamp_board::Lamp;
use mctp_packet::{Eid, Keep};
use mctp_schedule::{OpenedRequest, RunFault, Schedule, Setup, run};
use pldm_device::{Description, SimDevice};
use pldm_requester::TimingFault;
use pldm_wire::Window;
use std::alloc::{AllocError, Global};
use std::process::Abort;
use std::test::Fail;

/// The example device at endpoint 9, with a keeping time of a second and a window of all instance IDs.
pub fn example(alloc: Global) -> Result<Setup<SimDevice>, Fail> {
    let text = description(alloc)?;
    let Description {
        eid,
        keep,
        window,
        device,
        ..
    } = Description::read(alloc, text.as_bytes())?;
    Ok(Setup {
        eid,
        keep,
        window,
        device,
    })
}

/// A schedule, the requests in the order of performing, and the values of the device's sensor and numeric effecter.
pub type Row<'a> = (&'a str, &'a [u64], (i64, i64));

/// A request whose first answer is lost, and a retry.
pub const RETRY: Row<'_> = (
    "requester 8 timeout 200 tries 3\n\
        at 0 open 8 setnum 1 uint8 40\nat 0 req 0\nat 200 tick 8\nat 200 req 0\nat 210 rep 0 0\n",
    &[0],
    (40, 40),
);

/// A tag that is used again before a part of its last answer.
pub const TAG_USED_AGAIN: Row<'_> = (
    "requester 8 timeout 200 tries 3\n\
        at 0 open 8 getpdr 0 0 first 65535\nat 0 req 0\nat 0 rep 0 0\nat 600 tick 8\n\
        at 600 open 8 gettid\nat 600 open 8 gettid\nat 600 open 8 gettid\nat 600 open 8 gettid\n\
        at 600 open 8 gettid\nat 600 open 8 gettid\nat 600 open 8 gettid\n\
        at 600 open 8 getpdr 0 0 first 65535\nat 600 req 8\nat 610 rep 8 1\n\
        at 620 rep 8 0\nat 620 rep 8 1\nat 620 rep 8 2\nat 620 rep 8 3\nat 620 rep 8 4\n",
    &[0, 8],
    (40, 10),
);

/// Checks what a run of the example device over a timely schedule reports.
pub fn expect_run(
    rt: &impl Abort,
    alloc: Global,
    (text, order, values): Row<'_>,
) -> Result<(), Fail> {
    let schedule = Schedule::read(alloc, text.as_bytes())?;
    let arena = Bump::new(alloc);
    let report = run(alloc, &arena, example(alloc)?, &schedule)?;
    assert!(rt; report.timely, "{text}");
    assert_eq!(rt; report.entries.len(), schedule.steps().len(), "{text}");
    assert_eq!(rt; report.order.as_slice(), order, "{text}");
    let device = report.device;
    assert_eq!(rt; device.sensor(0), Some((1, values.0)), "{text}");
    assert_eq!(rt; device.numeric(0), Some((1, values.1)), "{text}");
    Ok(())
}

#[test]
fn runs_perform_each_request_once(rt: HostRuntime) -> Result<(), Fail> {
    for row in [RETRY, TAG_USED_AGAIN] {
        expect_run(&rt, rt.alloc(), row)?;
    }
    Ok(())
}

const TWO_REQUESTERS: &str = "requester 8 timeout 200 tries 3\nrequester 10 timeout 200 tries 3\n\
    at 0 open 8 setnum 1 uint8 40\nat 5 open 10 setnum 1 uint8 50\nat 6 open 8 gettid\n";

/// Adds a line for each request: who asked, its number, instance ID and tag, when it was opened, and its message.
fn push_requests(text: &mut String, requests: &[OpenedRequest<'_>]) -> Result<(), AllocError> {
    for request in requests {
        let (source, own) = (request.requester().get(), request.number());
        write!(text, "from {source} number {own} ")?;
        let (id, tag) = (request.id(), request.tag().get());
        write!(text, "id {id} tag {tag} at {} ", request.opening().get())?;
        for byte in request.message() {
            write!(text, "{byte:02x}")?;
        }
        text.push_str("\n")?;
    }
    Ok(())
}

#[test]
fn two_requesters_number_their_own_requests(rt: HostRuntime) -> Result<(), Fail> {
    let schedule = Schedule::read(rt.alloc(), TWO_REQUESTERS.as_bytes())?;
    let arena = Bump::new(rt.alloc());
    let report = run(rt.alloc(), &arena, example(rt.alloc())?, &schedule)?;
    let mut text = String::new(rt.alloc());
    push_requests(&mut text, &report.requests)?;
    let requests = "from 8 number 0 id 0 tag 0 at 0 0180023101000028\n\
        from 10 number 0 id 0 tag 0 at 5 0180023101000032\n\
        from 8 number 1 id 1 tag 1 at 6 01810002\n";
    assert_eq!(rt; text.as_str(), requests);
    Ok(())
}

/// A lamp of level 5 at endpoint 20, with a keeping time of 600 ms.
fn lamp() -> Option<Setup<Lamp>> {
    Some(Setup {
        eid: Eid::new(20)?,
        keep: Keep::new(600)?,
        window: Window::new(32)?,
        device: Lamp::new(5)?,
    })
}

#[test]
fn another_platform_is_run(rt: HostRuntime) -> Result<(), Fail> {
    let text = "requester 10 timeout 200 tries 3\n\
        at 0 open 10 setnum 1 uint8 40\nat 0 req 0\nat 1 rep 0 0\nat 2 sense 2 9\nat 2 sense 1 -3\n\
        at 3 sense 1 30\n";
    let schedule = Schedule::read(rt.alloc(), text.as_bytes())?;
    let arena = Bump::new(rt.alloc());
    let report = run(rt.alloc(), &arena, lamp().ok_or("no lamp")?, &schedule)?;
    assert!(rt; report.timely);
    assert_eq!(rt; report.order.as_slice(), [0].as_slice());
    assert_eq!(rt; report.device.level(), 30);
    Ok(())
}

#[test]
fn refused_requesters_are_reported(rt: HostRuntime) -> Result<(), Fail> {
    let text =
        "requester 10 timeout 200 tries 3\nrequester 8 timeout 400 tries 3\nrequester 9 timeout 200 tries 3";
    let schedule = Schedule::read(rt.alloc(), text.as_bytes())?;
    let arena = Bump::new(rt.alloc());
    let fault = run(rt.alloc(), &arena, example(rt.alloc())?, &schedule).err();
    let eid = Eid::new(8).ok_or("no endpoint ID")?;
    let late = RunFault::Timing(eid, TimingFault::TooLate);
    assert_eq!(rt; late.to_string(rt.alloc())?.as_str(), LATE);
    assert_eq!(rt; fault, Some(late));
    let refused = RunFault::Memory(AllocError.into());
    assert_eq!(rt; refused.to_string(rt.alloc())?.as_str(), "out of memory");
    Ok(())
}

const LATE: &str =
    "the timing of a requester was refused: the tries take longer than the keeping time";
