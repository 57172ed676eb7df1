//! The order in which the open messages began, so that the oldest one can be ended.

ghost use Rattle.std.specs.Prelude.{◌≡◌, ◌<◌, ◌||◌, ◌==◌, not, true, if◌then◌else◌, OnOk};
ghost use Rattle.std.specs.Vec.{vec_capacity, vec_len};
ghost use Rattle.pldm_responder.specs.OpenOrder.{begun_with, first_open as first_open_of, is_apart, without};

use mctp_assembly::{Assembler, Key};
use mctp_packet::Memory;

/// Of these keys, the oldest first, the first on which a message is open.
pub(crate) fn first_open(begun: &[Key], assembler: &Assembler) -> Option<Key>
    ensures { result ≡ first_open_of assembler.now begun.now }
{
    begun.iter().copied().find(|key| assembler.is_open(*key))
}

/// Ends the message that is open on this key.
pub(crate) fn end_message(assembler: &mut Assembler, ended: Option<Key>)
    ensures { assembler.new ≡ without ended assembler.old }
{
    if let Some(key) = ended {
        assembler.forget(key);
    }
}

/// Reserves the place of one more key, where the order is kept.
pub(crate) fn reserve_begun(begun: &mut Vec<Key>, is_kept: bool) -> Result<(), Memory>
    ensures same { begun.new.items ≡ begun.old.items }
    ensures room { OnOk result (is_kept ≡ true → vec_len begun.new < vec_capacity begun.new) }
{
    if is_kept {
        begun.reserve(1)?;
    }
    Ok(())
}

/// Puts the key on which a message began behind those of the messages that are open still, where the order is kept.
pub(crate) fn put_begun(begun: &mut Vec<Key>, is_kept: bool, key: Key, assembler: &Assembler)
    requires room { is_kept ≡ true → vec_len begun.old < vec_capacity begun.old }
    ensures { begun.new.items
        ≡ (if is_kept then begun_with assembler.now key begun.old.items else begun.old.items) }
{
    if is_kept {
        begun.retain(|other| is_apart(*other, key) && assembler.is_open(*other));
        begun.push_reserved(key);
    }
}

/// Whether these are the keys of two sources, or of two tags.
fn is_apart(a: Key, b: Key) -> bool
    ensures { result ≡ is_apart a b }
{
    a.source != b.source || a.tag != b.tag
}
