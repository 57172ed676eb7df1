//! How the messages of a capture are shown.

ghost use Rattle.std.specs.Prelude.{◌≡◌, ◌++◌, ℕ, List, OnOk, refl};
ghost use Rattle.mctpctl_engines.specs.MessageForms.{LooksBack, Message, in_hex, whole_message};
ghost use Rattle.mctpctl_texts.specs.ShownLines.{message_line};

use mctp_packet::{Memory, Route};
use mctpctl_texts::write_message_line;
use std::alloc::Global;

/// How the line of a whole message is written, after the whole messages before it: by what the form holds of those.
///
/// The law `looks_back`: the line over what is held is the line that looks back over all of them.
pub trait MessageForm {
    // the line of a message after those before it, the newest first
    ghost line: { List Message → Message → List ℕ };

    // what a value holds of the messages before
    ghost Held: { Type 0 };

    ghost held_of: { Self → Held };

    // of no message
    ghost none_held: { Held };

    // with one message more
    ghost held_with: { Held → Message → Held };

    // the line of a message over what is held of those before it
    ghost held_line: { Held → Message → List ℕ };

    /// Adds the line of a whole message, and holds what the lines of later ones depend on. Where a growth was refused
    /// the form is of no more use.
    fn push_line(
        &mut self,
        alloc: Global,
        out: &mut Vec<u8>,
        route: Route,
        message: &[u8],
    ) -> Result<(), Memory>
        ensures line { OnOk result (out.new.items
            ≡ out.old.items ++ held_line (held_of self.old) (whole_message route message.now)) }
        ensures held { OnOk result (held_of self.new
            ≡ held_with (held_of self.old) (whole_message route message.now)) };

    ghost looks_back: { LooksBack line none_held held_with held_line };
}

/// The header by name and the data in hex, as `mctpctl show` writes a message. It holds nothing.
#[derive(Clone, Copy, Debug)]
pub struct InHex;

impl MessageForm for InHex {
    ghost line = { in_hex };

    ghost Held = { Unit {0} };

    ghost held_of = { λ _. tt };

    ghost none_held = { tt };

    ghost held_with = { λ _ _. tt };

    ghost held_line = { λ _ m. message_line m.bytes };

    fn push_line(
        &mut self,
        _: Global,
        out: &mut Vec<u8>,
        _: Route,
        message: &[u8],
    ) -> Result<(), Memory>
        ensures line { OnOk result (out.new.items ≡ out.old.items ++ message_line message.now) }
    {
        write_message_line(out, message)
    }

    ghost looks_back = { λ before m. refl };
}
