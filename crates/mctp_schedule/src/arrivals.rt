//! Which instance IDs of each source arrived last, for the test of a timely schedule.

ghost use Rattle.std.specs.Prelude.{◌≡◌, ◌≤◌, ◌&&◌, ◌||◌, ◌==◌, not, ℕ, [], OnOk, length, take, if◌then◌else◌};
ghost use Rattle.std.specs.List.{list_any};
ghost use Rattle.pldm_wire.specs.Headers.{id_at};
ghost use Rattle.pldm_responder.specs.Recency.{renewed, without};
ghost use Rattle.mctp_schedule.specs.ArrivedIds.{ids_at};

use mctp_packet::{Eid, Memory};
use pldm_wire::{INSTANCE_IDS, Window};
use std::alloc::Global;
use std::marker::Model;

/// The instance IDs of the requests of a source, in the order of the latest first arrival of each, the newest first.
#[derive(Debug, Drop)]
struct ArrivedIds {
    ids: Vec<u8>,
}

impl Model for ArrivedIds {
    ghost use Rattle.std.specs.Prelude.{List, ℕ};
    ghost use Rattle.pldm_responder.specs.Recency.{IsApart};

    ghost Value = { List ℕ };

    ghost view = { λ a. a.ids.items };

    ghost invariant = { λ a. IsApart (λ id. id) a.ids.items };
}

impl ArrivedIds {
    /// None arrived yet.
    fn new(alloc: Global) -> ArrivedIds
        ensures { result ≡ [] }
    {
        ArrivedIds {
            ids: Vec::new(alloc),
        }
    }

    /// Whether an instance ID is among the `window` that arrived last.
    fn has_in(&self, window: Window, id: u8) -> bool
        ensures { result ≡ list_any (λ other. other == id) (take window self.now) }
    {
        let count = self.ids.len().min(usize::from(window.get()));
        self.ids[..count].contains(&id)
    }

    /// Takes an instance ID out, where it is among them.
    fn remove(&mut self, id: u8)
        ensures { self.new ≡ without (λ id. id) id self.old }
    {
        // A requester uses its instance IDs in turn, so the one that comes is mostly the oldest, and is not looked for.
        if self.ids.last() == Some(&id) {
            self.ids.pop();
            return;
        }
        self.ids.retain(|other| *other != id);
    }

    /// Puts an instance ID in front.
    fn renew(&mut self, id: u8) -> Result<(), Memory>
        ensures { OnOk result (self.new ≡ renewed (λ id. id) id self.old) }
    {
        self.remove(id);
        self.ids.insert(0, id)?;
        Ok(())
    }
}

/// For each source, the instance IDs of its requests that arrived. A restart of the device changes none of them.
#[derive(Debug, Drop)]
pub(crate) struct Arrivals {
    alloc: Global,
    /// One for each endpoint ID, up to the greatest that had a first arrival.
    sources: Vec<ArrivedIds>,
}

impl Arrivals {
    /// Nothing arrived yet.
    pub(crate) fn new(alloc: Global) -> Arrivals
        ensures { (source : ℕ) → ids_at result source ≡ [] }
    {
        Arrivals {
            alloc,
            sources: Vec::new(alloc),
        }
    }

    /// Whether this instance ID of a source is among the `window` that arrived last.
    fn is_in_window(&self, source: Eid, id: u8, window: Window) -> bool
        ensures { result ≡ list_any (λ other. other == id) (take window (ids_at self.now source)) }
    {
        match self.sources.get(usize::from(source.get())) {
            Some(ids) => ids.has_in(window, id),
            None => false,
        }
    }

    /// Whether a request of this source and instance ID comes in time: soon enough after it was opened and, where
    /// it arrived before, in the window.
    pub(crate) fn is_in_time(
        &self,
        soon: bool,
        arrived: bool,
        source: Eid,
        id: u8,
        window: Window,
    ) -> bool
        ensures { result ≡ (soon
            && (not arrived || list_any (λ other. other == id) (take window (ids_at self.now source)))) }
    {
        soon && (!arrived || self.is_in_window(source, id, window))
    }

    /// Notes that a request of this source and instance ID came. It counts as arriving where it did not arrive before
    /// and the device is not busy.
    pub(crate) fn note(
        &mut self,
        arrived: bool,
        busy: bool,
        source: Eid,
        id: u8,
    ) -> Result<(), Memory>
        ensures { OnOk result ((other : ℕ) → ids_at self.new other ≡ (if source == other && (not arrived && not busy)
            then renewed (λ id. id) id (ids_at self.old other) else ids_at self.old other)) }
    {
        if !arrived && !busy {
            let place = usize::from(source.get());
            self.make_places(place + 1)?;
            self.sources[place].renew(id)?;
        }
        Ok(())
    }

    /// Makes the places below this one, where they are not made yet.
    fn make_places(&mut self, end: usize) -> Result<(), Memory>
        ensures made { OnOk result (end ≤ length self.new.sources.items) }
        ensures same { OnOk result ((source : ℕ) → ids_at self.new source ≡ ids_at self.old source) }
    {
        for _ in self.sources.len()..end {
            self.sources.push(ArrivedIds::new(self.alloc))?;
        }
        Ok(())
    }
}

/// The instance ID of a request with this message (DSP0240, "PLDM message fields").
pub(crate) fn instance_id(message: &[u8]) -> u8
    ensures { result ≡ id_at message.now }
{
    message.get(1).copied().unwrap_or(0) % INSTANCE_IDS
}
