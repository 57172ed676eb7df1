//! The lines of a text, the words of a line, and the numbers that words spell. LF alone ends a line, and
//! a space (0x20) alone separates words.
#![tactic(auto)]

mod numbers;
mod words;

pub use numbers::{MAX_DIGITS, read_decimal, read_number, read_value};
pub use words::{first_number, first_word, split_line, split_number, split_word, without_cr};
