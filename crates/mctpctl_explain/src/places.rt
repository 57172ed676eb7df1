//! The places of the keys of a description.

ghost use Rattle.std.specs.Prelude.{◌≡◌, IfOk, string_bytes};
ghost use Rattle.mctpctl_explain.specs.TextPlaces.{IsFront, text_in};

use crate::key_places::{KeyPlace, key_places};
use crate::paths::{parent_of, path_text};
use crate::place::Place;
use mctp_packet::Memory;
use pldm_device::Path;
use std::alloc::Global;

/// The keys of a description, the items of its arrays and the headers of its tables, each with its place.
#[derive(Drop)]
pub(crate) struct Places<'a> {
    description: &'a [u8],
    keys: Vec<KeyPlace>,
}

impl<'a> Places<'a> {
    /// Finds the places in a description. Of text that is no TOML it has those before that place, and of text that is
    /// no UTF-8 none. Which keys are found, and where, is tested; no clause says it.
    pub(crate) fn read(alloc: Global, description: &'a [u8]) -> Result<Places<'a>, Memory>
        ensures { IfOk result (λ places. text_in places ≡ description.now) }
    {
        let keys = match str::from_utf8(description) {
            Ok(text) => key_places(alloc, text)?,
            Err(_) => Vec::new(alloc),
        };
        Ok(Places { description, keys })
    }

    /// The line and the column of a path, or of what it is in, as `line 3, column 1: `; nothing where that is not
    /// found. The line is one of the description; that it is the path's is tested.
    #[tactic(auto, using(crate::proofs::FoundPlaces::front_is))]
    pub(crate) fn front_of(&self, alloc: Global, path: Path<'_>) -> Result<String, Memory>
        ensures { IfOk result (λ front. IsFront (text_in self.now) (string_bytes front)) }
    {
        let mut here = Some(path);
        for _ in 0..4 {
            let Some(path) = here else {
                break;
            };
            let name = path_text(alloc, &path)?;
            if let Some(key) = self.keys.iter().find(|key| key.path == name) {
                let place = Place::at(self.description, key.offset).text(alloc)?;
                return Ok(format!(in alloc; "{place}: ")?);
            }
            here = parent_of(path);
        }
        Ok(String::new(alloc))
    }
}
