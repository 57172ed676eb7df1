//! The words of a report's lines, made once for all lines.

ghost use Rattle.std.specs.Prelude.{◌≡◌, ◌++◌, ◌∷◌, []};
ghost use Rattle.mctpctl_texts.specs.EntryTexts.{answered_text, not_opened_text, sensed_text};
ghost use Rattle.mctpctl_texts.specs.Phrases.{phrases};

use crate::page::Part;
use pldm_platform::ReadingFault;
use pldm_requester::OpenFault;

/// The words of a report's lines, which are made once for all lines that have them. Where a line ends with them, its
/// end is among them.
#[derive(Drop)]
pub(crate) struct Phrases {
    pub(crate) nothing: Part,
    pub(crate) opened: Part,
    tag_in_use: Part,
    id_in_use: Part,
    out_of_memory: Part,
    pub(crate) nothing_due: Part,
    pub(crate) drop: Part,
    pub(crate) partial: Part,
    busy: Part,
    copy: Part,
    changed: Part,
    unchanged: Part,
    pub(crate) answered: Part,
    set: Part,
    no_such_sensor: Part,
    out_of_size: Part,
    pub(crate) restarted: Part,
    pub(crate) end: Part,
    pub(crate) request: Part,
    pub(crate) from: Part,
    pub(crate) still_open: Part,
    pub(crate) answered_by: Part,
    pub(crate) gave_up: Part,
    pub(crate) order: Part,
    pub(crate) no_order: Part,
}

impl Phrases {
    /// All of them.
    pub(crate) fn new() -> Phrases
        ensures { result ≡ phrases }
    {
        Phrases {
            nothing: Part::new("nothing\n"),
            opened: Part::new("opened "),
            tag_in_use: Part::new("tag in use\n"),
            id_in_use: Part::new("id in use\n"),
            out_of_memory: Part::new("out of memory\n"),
            nothing_due: Part::new("nothing due\n"),
            drop: Part::new("drop "),
            partial: Part::new("partial\n"),
            busy: Part::new("busy\n"),
            copy: Part::new("copy\n"),
            changed: Part::new("fresh changed\n"),
            unchanged: Part::new("fresh unchanged\n"),
            answered: Part::new("answered\n"),
            set: Part::new("set\n"),
            no_such_sensor: Part::new("no such sensor\n"),
            out_of_size: Part::new("out of size\n"),
            restarted: Part::new("restarted\n"),
            end: Part::new("\n"),
            request: Part::new("request "),
            from: Part::new("from "),
            still_open: Part::new("open\n"),
            answered_by: Part::new("answered "),
            gave_up: Part::new("gave up\n"),
            order: Part::new("order"),
            no_order: Part::new("order -\n"),
        }
    }

    /// Why no request was opened.
    pub(crate) fn not_opened(&self, fault: OpenFault) -> &Part
        requires { self.now ≡ phrases }
        ensures { result.now ≡ not_opened_text fault ++ 10 ∷ [] }
    {
        match fault {
            OpenFault::TagInUse => &self.tag_in_use,
            OpenFault::IdInUse => &self.id_in_use,
            OpenFault::Memory(_) => &self.out_of_memory,
        }
    }

    /// How a request was answered: by a busy answer, as a copy, or performed, which changed the device or did not.
    pub(crate) fn answered_as(&self, busy: bool, fresh: bool, changed: bool) -> &Part
        requires { self.now ≡ phrases }
        ensures { result.now ≡ answered_text busy fresh changed ++ 10 ∷ [] }
    {
        if busy {
            &self.busy
        } else if !fresh {
            &self.copy
        } else if changed {
            &self.changed
        } else {
            &self.unchanged
        }
    }

    /// What came of a reading.
    pub(crate) fn sensed(&self, sensed: &Result<(), ReadingFault>) -> &Part
        requires { self.now ≡ phrases }
        ensures { result.now ≡ sensed_text sensed.now ++ 10 ∷ [] }
    {
        match sensed {
            Ok(()) => &self.set,
            Err(ReadingFault::NoSuchSensor) => &self.no_such_sensor,
            Err(ReadingFault::OutOfSize) => &self.out_of_size,
        }
    }
}
