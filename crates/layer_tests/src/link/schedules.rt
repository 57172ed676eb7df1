//! Schedules read from text, and the first line that is refused.

use mctp_schedule::{LineFaultKind, Schedule};
use std::test::Fail;

#[test]
fn reads_a_schedule(rt: HostRuntime) -> Result<(), Fail> {
    let text = b"requester 8 timeout 200 tries 3\r\n\
        at 0 open 8 setnum 1 uint8 40\n# sent\n\
        at 0 req 0\nat 210 rep 0 0"
        .as_slice();
    let schedule = Schedule::read(rt.alloc(), text)?;
    assert_eq!(rt; schedule.requesters().len(), 1);
    assert_eq!(rt; schedule.steps().len(), 3);
    Ok(())
}

#[test]
fn reports_the_first_faulty_line(rt: HostRuntime) -> Result<(), Fail> {
    let text = b"requester 8 timeout 200 tries 3\nat 5 tick 8\nat 4 tick 8".as_slice();
    let Err(fault) = Schedule::read(rt.alloc(), text) else {
        return Err(Fail::from("no fault"));
    };
    assert_eq!(rt; fault.line, 3);
    assert_eq!(rt; fault.kind, LineFaultKind::BackInTime);
    assert_eq!(rt; fault.to_string(rt.alloc())?.as_str(), "line 3: BackInTime");
    Ok(())
}
