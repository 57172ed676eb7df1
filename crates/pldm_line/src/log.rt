//! A watcher that writes what happens on a line as text.

ghost use Rattle.std.specs.Prelude.{◌≡◌, ◌≢◌, ◌||◌, None, true, false, IfOk, OnErr, string_bytes};
ghost use Rattle.std.specs.Io.KnownBytes.{Appends};
ghost use Rattle.pldm_line.specs.Events.{seen_of};
ghost use Rattle.pldm_line.specs.Logs.{AddsEvent, AddsText, capture_contents, capture_failed, capture_text, drop_text, drops_contents, drops_failed, port_contents};

use crate::events::{Event, Watch};
use crate::texts::{capture_text, drop_text};
use mctp_packet::Memory;
use mctpctl_input::Port;
use std::alloc::Global;
use std::io::Write;

/// A text that is written through a port, if there is one, until that fails: no more is written then.
#[derive(Drop)]
pub struct TextLog<W> {
    port: Option<Port<W>>,
    failed: bool,
}

impl<W: Write> TextLog<W> {
    /// Whether what comes next is written.
    fn is_open(&self) -> bool
        ensures open { result ≡ true → self.now.failed ≡ false }
        ensures there { result ≡ true → self.now.port ≢ None }
        ensures closed { result ≡ false → self.now.failed ≡ false → self.now.port ≡ None }
    {
        self.port.is_some() && !self.failed
    }

    /// Adds what an event adds to the drops.
    fn add_drop(&mut self, alloc: Global, event: &Event<'_>)
        ensures { AddsText W.contents self.old (drop_text (seen_of event.now)) self.new }
    {
        if self.is_open() {
            self.add(drop_text(alloc, event));
        }
    }

    /// Adds what an event adds to the capture.
    fn add_packets(&mut self, alloc: Global, event: &Event<'_>)
        ensures { AddsText W.contents self.old (capture_text (seen_of event.now)) self.new }
    {
        if self.is_open() {
            self.add(capture_text(alloc, event));
        }
    }

    /// Adds a text. Where there was no memory for it, that is the failure.
    fn add(&mut self, text: Result<String, Memory>)
        ensures text { IfOk text (λ text. self.new.failed ≡ false → Appends (port_contents W.contents self.old.port)
            (port_contents W.contents self.new.port) (string_bytes text)) }
        ensures adds { self.old.failed ≡ false
            → IfOk text (λ text. AddsText W.contents self.old (string_bytes text) self.new) }
        ensures memory { OnErr text (self.new.failed ≡ true) }
        ensures port { OnErr text (self.new.port ≡ self.old.port) }
    {
        match text {
            Ok(text) => self.write(text.as_bytes()),
            Err(_) => self.failed = true,
        }
    }

    /// Writes a text whole, and flushes it.
    fn write(&mut self, text: &[u8])
        ensures text { self.new.failed ≡ false
            → Appends (port_contents W.contents self.old.port) (port_contents W.contents self.new.port) text.now }
        ensures adds { self.old.failed ≡ false → AddsText W.contents self.old text.now self.new }
    {
        let Some(port) = &mut self.port else {
            return;
        };
        if text.is_empty() {
            return;
        }
        if port.write_all(text).is_err() || port.flush().is_err() {
            self.failed = true;
        }
    }
}

/// Writes what happens on a line. The capture has each packet that came and each that was sent, one a line: the
/// moment in milliseconds, a space, and the bytes in lower-case hex, as `mctpctl show` and `mctpctl answer` read them.
/// The drops are written one a line too, of frames and of packets. Each line is written whole and flushed. A failure of
/// one of the two, or of memory for its text, ends that one alone: no more is written to it.
#[derive(Drop)]
pub struct Log<N, T> {
    alloc: Global,
    drops: TextLog<N>,
    capture: TextLog<T>,
}

impl<N: Write, T: Write> Log<N, T> {
    /// Writes drops and a capture, each where there is a port for it.
    pub fn new(alloc: Global, drops: Option<Port<N>>, capture: Option<Port<T>>) -> Log<N, T>
        ensures drops { drops_contents N.contents result ≡ port_contents N.contents drops }
        ensures capture { capture_contents T.contents result ≡ port_contents T.contents capture }
        ensures drops_work { drops_failed result ≡ false }
        ensures capture_works { capture_failed result ≡ false }
    {
        Log {
            alloc,
            drops: TextLog {
                port: drops,
                failed: false,
            },
            capture: TextLog {
                port: capture,
                failed: false,
            },
        }
    }

    /// Whether one of the two has failed, so that a line of it may be missing.
    pub fn log_failed(&self) -> bool
        ensures { result ≡ (drops_failed self.now || capture_failed self.now) }
    {
        self.drops.failed || self.capture.failed
    }

    /// The ports of the drops and of the capture.
    pub fn into_ports(self) -> (Option<Port<N>>, Option<Port<T>>)
        ensures drops { port_contents N.contents result.0 ≡ drops_contents N.contents self }
        ensures capture { port_contents T.contents result.1 ≡ capture_contents T.contents self }
    {
        (self.drops.port, self.capture.port)
    }
}

impl<N: Write, T: Write> Watch for Log<N, T> {
    ghost sees = { λ old event new. AddsEvent N.contents T.contents old event new };

    /// Adds what happened.
    fn saw(&mut self, event: &Event<'_>) {
        self.drops.add_drop(self.alloc, event);
        self.capture.add_packets(self.alloc, event);
    }
}
