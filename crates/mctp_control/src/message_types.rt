//! The message types that an endpoint supports (DSP0236, "Get Message Type Support").

ghost use Rattle.std.specs.Prelude.{◌≡◌, ◌↔◌, nat_le, length, IsSome, IfSome, is_some};
ghost use Rattle.mctp_control.specs.Lists.{IsTypes};
ghost use Rattle.mctp_control.specs.declared.assigned.TheConstants.{MAX_MESSAGE_TYPES};

use crate::MAX_MESSAGE_TYPES;
use arrayvec::ArrayVec;
use std::marker::Model;

/// Message types, at most [`MAX_MESSAGE_TYPES`] (DSP0236, "Get Message Type Support").
#[derive(Debug, PartialEq, Eq, Drop)]
pub struct MessageTypes {
    types: ArrayVec<u8, MAX_MESSAGE_TYPES>,
}

impl Model for MessageTypes {
    ghost use Rattle.std.specs.Prelude.{List, ℕ};
    ghost use Rattle.mctp_control.specs.Lists.{IsTypes};

    ghost Value = { List ℕ };

    ghost view = { λ t. t.types.items };

    ghost invariant = { λ t. IsTypes t.types.items };

    ghost inverse = { λ xs. record { types = record { items = xs } } };
}

impl MessageTypes {
    /// These types, where they are not too many.
    pub fn new(types: &[u8]) -> Option<MessageTypes>
        ensures some { IsSome result ↔ IsTypes types.now }
        ensures test { is_some result ≡ nat_le (length types.now) MAX_MESSAGE_TYPES }
        ensures types { IfSome result (λ made. made ≡ types.now) }
    {
        if types.len() > MAX_MESSAGE_TYPES {
            return None;
        }
        let mut kept = ArrayVec::new();
        let _ = kept.try_extend_from_slice(types); // they fit
        Some(MessageTypes { types: kept })
    }

    /// The types in order.
    pub fn as_slice(&self) -> &[u8]
        ensures value { result.now ≡ self.now }
        ensures range { IsTypes self.now }
    {
        self.types.as_slice()
    }
}
