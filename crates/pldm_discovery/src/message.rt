//! The bytes of a message that a walk keeps.

ghost use Rattle.std.specs.Prelude.{◌≡◌, IfOk};

use mctp_packet::Memory;
use std::alloc::Global;
use std::marker::Model;

/// The bytes of a message.
#[derive(Debug, Drop)]
pub(crate) struct Message {
    bytes: Vec<u8>,
}

impl Model for Message {
    ghost use Rattle.std.specs.Prelude.{List, ℕ};

    ghost Value = { List ℕ };

    ghost view = { λ m. m.bytes.items };
}

impl Message {
    /// A copy of these bytes.
    pub fn copied(alloc: Global, bytes: &[u8]) -> Result<Message, Memory>
        ensures { IfOk result (λ made. made ≡ bytes.now) }
    {
        Ok(Message {
            bytes: bytes.to_vec(alloc)?,
        })
    }

    /// The bytes in order.
    pub fn as_slice(&self) -> &[u8]
        ensures { result.now ≡ self.now }
    {
        self.bytes.as_slice()
    }
}
