//! What a description says of how its endpoint treats requests: its keys `window` and `busy`.

use crate::device::descriptions::{changed, in_front};
use crate::expect::expect_eq;
use pldm_device::{Description, FileFault};
use pldm_wire::{PassThrough, RestartPolicy};
use std::alloc::Global;

/// The window and the busy time, or a fault.
type Settings = Result<(u8, RestartPolicy), FileFault>;

/// Lines in front of the example, and what it then says.
const ROWS: &[(&str, Settings)] = &[
    ("", Ok((32, RestartPolicy::All))),
    ("window = 1\n", Ok((1, RestartPolicy::All))),
    ("window = 32\n", Ok((32, RestartPolicy::All))),
    ("window = 0\n", Err(FileFault::OutOfRange)),
    ("window = 33\n", Err(FileFault::OutOfRange)),
    ("window = '1'\n", Err(FileFault::WrongKind)),
    ("busy = 'all'\n", Ok((32, RestartPolicy::All))),
    (
        "busy = 'sets'\n",
        Ok((32, RestartPolicy::Sets(PassThrough::NONE))),
    ),
    ("busy = 'none'\n", Err(FileFault::OutOfRange)),
    ("busy = 3\n", Err(FileFault::WrongKind)),
    (
        "busy = 'sets'\nwindow = 2\n",
        Ok((2, RestartPolicy::Sets(PassThrough::NONE))),
    ),
    ("busy = 3\nwindow = 33\n", Err(FileFault::OutOfRange)),
];

/// What a description says of its window and its busy time.
fn settings_of(alloc: Global, text: &str) -> Settings {
    let read = Description::read(alloc, text.as_bytes())?;
    Ok((read.window.get(), read.busy))
}

#[test]
fn windows_and_busy_times(rt: HostRuntime) {
    for (lines, wanted) in ROWS {
        let text = in_front(&rt, rt.alloc(), lines);
        expect_eq(&rt, settings_of(rt.alloc(), &text), *wanted, lines);
    }
}

#[test]
fn the_keeping_time_is_told_before_the_window(rt: HostRuntime) {
    let text = in_front(&rt, rt.alloc(), "window = 33\n");
    let (old, new) = ("keep_ms = ", "keep_ms = ''\nignored = ");
    let text = changed(&rt, rt.alloc(), &text, old, new);
    let settings = settings_of(rt.alloc(), &text);
    expect_eq(&rt, settings, Err(FileFault::WrongKind), new);
}
