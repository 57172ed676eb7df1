//! A place among the deliveries of a run.

ghost use Rattle.std.specs.Prelude.{◌≡◌, ◌+◌, ◌<◌, ◌^◌, None, Some};

use std::marker::Model;

/// A place among the deliveries of a run, or none, in one word: how many deliveries there are as far as that
/// place.
#[derive(Debug, Drop)]
pub(crate) struct DeliveryPlace {
    reach: usize,
}

// A run has two for each request.
const _: () = prove!(size_of::<DeliveryPlace>() == 8);

impl Model for DeliveryPlace {
    ghost use Rattle.std.specs.Prelude.{ℕ, Option};
    ghost use Rattle.mctp_schedule.specs.DeliveryPlaces.{last_within};

    ghost Value = { Option ℕ };

    ghost view = { λ p. last_within p.reach };
}

impl DeliveryPlace {
    /// No place.
    pub(crate) fn none() -> DeliveryPlace
        ensures { result ≡ None }
    {
        DeliveryPlace { reach: 0 }
    }

    /// This place, counted from 0.
    pub(crate) fn at(place: usize) -> DeliveryPlace
        requires { place + 1 < 2 ^ 64 }
        ensures { result ≡ Some place }
    {
        DeliveryPlace { reach: place + 1 }
    }

    /// The place.
    pub(crate) fn get(&self) -> Option<usize>
        ensures { result ≡ self.now }
    {
        self.reach.checked_sub(1)
    }
}
