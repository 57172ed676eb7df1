//! A number kept with its decimal digits and a space, for lines that begin with the same number.

ghost use Rattle.std.specs.Fmt.{decimal};
ghost use Rattle.std.specs.Prelude.{◌≡◌, ◌++◌, ◌∷◌, []};

use crate::page::Part;
use std::marker::Model;

/// A number, its decimal digits and a space, which are made once for lines that begin with the same
/// number.
#[derive(Drop)]
pub(crate) struct Decimal {
    number: u64,
    spaced: Part,
}

impl Model for Decimal {
    ghost use Rattle.std.specs.Fmt.{decimal};
    ghost use Rattle.std.specs.Prelude.{◌≡◌, ◌++◌, ◌∷◌, [], ℕ};

    ghost Value = { ℕ };

    ghost view = { λ d. d.number };

    ghost invariant = { λ d. d.spaced ≡ decimal d.number ++ 32 ∷ [] };
}

impl Decimal {
    /// This number.
    pub(crate) fn new(number: u64) -> Decimal
        ensures { result ≡ number }
    {
        Decimal {
            number,
            spaced: Part::of_number(number, b' '),
        }
    }

    /// Becomes this number.
    pub(crate) fn set(&mut self, number: u64)
        ensures { self.new ≡ number }
    {
        if self.number != number {
            *self = Decimal::new(number);
        }
    }

    /// Its digits, and a space.
    pub(crate) fn spaced(&self) -> &Part
        ensures { result.now ≡ decimal self.now ++ 32 ∷ [] }
    {
        &self.spaced
    }
}
