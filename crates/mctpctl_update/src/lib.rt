//! What `mctpctl` does in a firmware update: the file of a served device's firmware, what a package or an image offers
//! to a device, and the update that an agent brings, with what is printed of it.
#![tactic(auto)]

mod brought;
mod firmware_file;
mod offers;
mod progress;
mod questions;
mod session;
mod texts;

pub use brought::{Brought, read_brought};
pub use firmware_file::FirmwareFile;
pub use offers::{ImageOptions, OfferFault, offers_for};
pub use session::{Job, Keeps, SessionFault, bring};
