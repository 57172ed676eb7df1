//! `--explain`: what a fault of the input is, in more words; and warnings of an input: what in it is ignored, or is
//! likely to be a mistake.
#![tactic(auto)]

mod allowed;
mod back_in_time;
mod capture_line;
mod description;
mod divided;
mod expected;
mod explanation;
mod forgotten;
mod ignored;
mod input_warnings;
mod key_places;
mod known_keys;
mod limits;
mod paths;
mod place;
mod places;
mod quote;
mod schedule_line;
mod suggest;
mod timing;
mod words;

pub use expected::{misplaced_option_text, refused_text};
pub use explanation::{Subcommand, explain};
pub use input_warnings::{MAX_WARNINGS, warnings};
