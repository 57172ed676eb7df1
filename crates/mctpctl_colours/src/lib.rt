//! Colours on a terminal: what changed, and what was dropped. Without its colours a text is the plain one.
#![tactic(auto)]

mod colouring;
pub mod laws;
mod marks;
mod paint;
mod readings;

pub use colouring::Colouring;
pub use marks::{Marks, is_asked};
pub use paint::{Colour, push_painted};
