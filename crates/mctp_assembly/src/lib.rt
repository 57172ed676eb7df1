//! Messages assembled from MCTP packets (DSP0236, "Message assembly").
#![tactic(auto)]

mod assembler;
mod buffer;
mod fed;
mod key;
pub mod laws;
mod messages;

pub use assembler::{Assembler, MAX_ASSEMBLIES};
pub use fed::{Assembled, Fed};
pub use key::Key;
