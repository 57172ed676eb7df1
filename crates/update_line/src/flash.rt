//! Where the images of a firmware device are stored.

ghost use Rattle.update_line.specs.FlashCalls.{call_of};

use pldm_update::{Component, FlashAction};

/// A flash that takes images beside those that are active. The calls come one after another, each once for a step of the
/// device's machine, and return whether it went well: what comes of an update is what they say. `acted` relates the flash
/// before and after a call, which went well or not; one that says nothing of that lets it hold of all.
pub trait Flash: Drop {
    ghost use Rattle.std.specs.Prelude.{Bool};
    ghost use Rattle.update_line.specs.FlashCalls.{FlashCall, Begins, Stores, Verifies, Applies, Activates, Abandons, AbandonsUpdate};

    // this call went so, and made the one flash the other
    ghost acted: { Self → FlashCall → Bool → Self → Type 0 };

    /// Makes room for an image of so many bytes, for this component, beside the active one.
    fn begin(&mut self, component: Component, size: u32) -> bool
        ensures { acted self.old (Begins component size) result self.new };

    /// Stores the bytes of a piece, from this offset on.
    fn store(&mut self, offset: u32, piece: &[u8]) -> bool
        ensures { acted self.old (Stores offset piece.now) result self.new };

    /// Verifies the stored image.
    fn verify(&mut self) -> bool
        ensures { acted self.old Verifies result self.new };

    /// Applies the verified image: at the next activation it is the active one.
    fn apply(&mut self) -> bool
        ensures { acted self.old Applies result self.new };

    /// Makes all that was applied active.
    fn activate(&mut self) -> bool
        ensures { acted self.old Activates result self.new };

    /// Forgets the image that was begun last. What is active stays, and what was applied.
    fn abandon(&mut self) -> bool
        ensures { acted self.old Abandons result self.new };

    /// Forgets all that is not active.
    fn abandon_update(&mut self) -> bool
        ensures { acted self.old AbandonsUpdate result self.new };
}

/// Does a step by the call that it is: for this component, with this piece.
pub(crate) fn act<F: Flash>(
    flash: &mut F,
    component: Component,
    action: FlashAction,
    piece: &[u8],
) -> bool
    ensures { F.acted flash.old (call_of component action piece.now) result flash.new }
{
    match action {
        FlashAction::Begin { size } => flash.begin(component, size),
        FlashAction::Store { offset } => flash.store(offset, piece),
        FlashAction::Verify => flash.verify(),
        FlashAction::Apply => flash.apply(),
        FlashAction::Activate => flash.activate(),
        FlashAction::Abandon => flash.abandon(),
        FlashAction::AbandonUpdate => flash.abandon_update(),
    }
}
