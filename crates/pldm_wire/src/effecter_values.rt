//! The pending and the present value of a numeric effecter (DSP0248, "GetNumericEffecterValue command").

ghost use Rattle.std.specs.Prelude.{◌≡◌, ◌↔◌, IsSome, IfSome};
ghost use Rattle.pldm_wire.specs.Numbers.{IsNumber};
ghost use Rattle.pldm_wire.specs.EffecterNumbers.{two_numbers};

use crate::Number;
use std::marker::Model;

/// The pending and the present value of a numeric effecter, two numbers of one data size (DSP0248,
/// "GetNumericEffecterValue command").
#[derive(Clone, Copy, Debug, PartialEq, Eq)]
pub struct EffecterValues {
    pending: Number,
    present: Number,
}

impl Model for EffecterValues {
    ghost use Rattle.std.specs.Prelude.{◌≡◌};
    ghost use Rattle.pldm_wire.specs.EffecterNumbers.{TwoNumbers};

    ghost Value = { TwoNumbers };

    ghost view = { λ v. record { pending = v.pending; present = v.present } };

    ghost invariant = { λ v. v.pending.size ≡ v.present.size };

    ghost inverse = { λ v. record { pending = v.pending; present = v.present } };
}

impl EffecterValues {
    /// These two values, where they are of one size.
    pub fn new(pending: Number, present: Number) -> Option<EffecterValues>
        ensures some { IsSome result ↔ (pending.size ≡ present.size) }
        ensures values { IfSome result (λ values. values ≡ two_numbers pending present) }
    {
        if pending.size() == present.size() {
            Some(EffecterValues::of(pending, present))
        } else {
            None
        }
    }

    /// These two values, which are of one size.
    pub(crate) fn of(pending: Number, present: Number) -> EffecterValues
        requires { pending.size ≡ present.size }
        ensures { result ≡ two_numbers pending present }
    {
        EffecterValues { pending, present }
    }

    /// The value that the effecter is going to.
    pub fn pending(self) -> Number
        ensures value { result ≡ self.pending }
        ensures range { IsNumber self.pending }
        ensures size { self.pending.size ≡ self.present.size }
    {
        self.pending
    }

    /// The value that the effecter has.
    pub fn present(self) -> Number
        ensures value { result ≡ self.present }
        ensures range { IsNumber self.present }
        ensures size { self.pending.size ≡ self.present.size }
    {
        self.present
    }
}
