//! The table of what a device's sensors and effecters say: from records and answers to text.
#![tactic(auto)]

mod columns;
mod decimal;
mod decimal_text;
mod described;
mod identifier;
mod log;
mod marks;
mod name;
mod reading;
mod real32;
mod record_names;
mod reply;
mod row;
mod rows;
mod state_text;
mod table;
mod text;
mod unit;
mod value;

pub use described::Described;
pub use table::Table;
