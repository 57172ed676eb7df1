//! For how many instance IDs of a source answers are kept.

ghost use Rattle.std.specs.Prelude.{◌≡◌, ℕ, ◌↔◌, IsSome, IfSome};
ghost use Rattle.pldm_wire.specs.Settings.{IsWindow};

use crate::INSTANCE_IDS;
use std::marker::Model;

/// For how many instance IDs of a source answers are kept, those of its latest requests: 1 to 32. This profile's own
/// number. A request is known as a copy while fewer other instance IDs of its source than this had a request since.
#[derive(Clone, Copy, Debug, PartialEq, Eq, PartialOrd, Ord)]
pub struct Window {
    ids: u8,
}

impl Model for Window {
    ghost Value = { ℕ };

    ghost view = { λ window. window.ids };

    ghost invariant = { λ window. IsWindow window.ids };

    ghost inverse = { λ n. record { ids = n } };
}

impl Window {
    /// All instance IDs: none falls out.
    pub const ALL: Window = Window { ids: INSTANCE_IDS };

    /// This many instance IDs, where they are 1 to 32.
    pub fn new(ids: u8) -> Option<Window>
        ensures some { IsSome result ↔ IsWindow ids }
        ensures value { IfSome result (λ window. window ≡ ids) }
        ensures range { IfSome result IsWindow }
    {
        if (1..=INSTANCE_IDS).contains(&ids) {
            Some(Window { ids })
        } else {
            None
        }
    }

    /// How many instance IDs, 1 to 32.
    pub fn get(self) -> u8
        ensures value { result ≡ self }
        ensures range { IsWindow self }
    {
        self.ids
    }
}
