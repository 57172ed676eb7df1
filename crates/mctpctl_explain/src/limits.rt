//! How much an explanation says.

/// The most bytes of a word of the input that an explanation repeats.
pub(crate) const MAX_QUOTED: usize = 40;

/// The longest word, in bytes, for which a known word like it is looked for.
pub(crate) const MAX_SUGGESTED: usize = 32;

/// How many letters a word may differ from the known word that is suggested for it.
pub(crate) const MAX_EDITS: usize = 2;
