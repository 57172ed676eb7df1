//! A word of a line, and the numbers that it may spell.

ghost use Rattle.std.specs.Prelude.{◌≡◌, ◌≤◌, IfOk};
ghost use Rattle.line_words.specs.Numbers.{decimal_of};
ghost use Rattle.schedule_text.specs.CommandWords.{is};
ghost use Rattle.schedule_text.specs.Refusals.{kinds};
ghost use Rattle.schedule_text.specs.WordValues.{any_number, any_value, eid_in, moment_in, number_up_to};

use crate::{Expected, Refusal};
use line_words::read_value;
use mctp_packet::{Eid, MAX_EID, MAX_MOMENT, Moment};
use std::marker::Model;

/// The greatest number of one byte.
pub const MAX_BYTE: u64 = 255;

/// The greatest number of two bytes, as the ID of a sensor or an effecter.
pub const MAX_ID: u64 = 65_535;

/// The greatest number of four bytes, as a handle of a record.
pub const MAX_HANDLE: u64 = 4_294_967_295;

/// The longest timeout of a requester, in milliseconds.
pub const MAX_TIMEOUT: u64 = 60_000;

/// A word of a line, with the number that it spells, which is read as the word's end is looked for.
#[derive(Drop)]
pub(crate) struct Word<'a> {
    bytes: &'a [u8],
    number: Option<u64>,
}

impl<'a> Model for Word<'a> {
    ghost use Rattle.std.specs.Prelude.{◌≡◌, List, ℕ};
    ghost use Rattle.line_words.specs.Numbers.{decimal_of};

    ghost Value = { List ℕ };

    ghost view = { λ word. word.bytes.now };

    ghost invariant = { λ word. word.number ≡ decimal_of word.bytes.now };
}

impl Default for Word<'_> {
    fn default() -> Self {
        Word {
            bytes: b"",
            number: None,
        }
    }
}

impl<'a> Word<'a> {
    /// The word of these bytes, which spell this number.
    pub(crate) fn new(bytes: &'a [u8], number: Option<u64>) -> Word<'a>
        requires { number ≡ decimal_of bytes.now }
        ensures { result ≡ bytes.now }
    {
        Word { bytes, number }
    }

    /// Its bytes.
    pub(crate) fn bytes(&self) -> &'a [u8]
        ensures { result.now ≡ self.now }
    {
        self.bytes
    }

    /// The number that it spells, of at most 16 digits.
    pub(crate) fn number(&self) -> Option<u64>
        ensures { result ≡ decimal_of self.now }
    {
        self.number
    }

    /// Whether it is this fixed word.
    pub(crate) fn is(&self, spelling: &[u8]) -> bool
        ensures { result ≡ is self.now spelling.now }
    {
        self.bytes == spelling
    }

    /// The number that it spells, where it is at most `most`.
    // Inlined, as the readers of numbers after it: their results are then passed on in parts.
    #[inline(always)]
    fn number_up_to(&self, most: u64, expected: Expected) -> Result<u64, Refusal<'a>>
        ensures value { kinds result ≡ number_up_to most self.now }
        ensures range { IfOk result (λ number. number ≤ most) }
    {
        match self.number {
            Some(number) if number <= most => Ok(number),
            _ => Err(Refusal::of_number(self.bytes, expected)),
        }
    }

    /// The number of at most 16 digits that it spells.
    #[inline(always)]
    pub(crate) fn any_number(&self) -> Result<u64, Refusal<'a>>
        ensures { kinds result ≡ any_number self.now }
    {
        match self.number {
            Some(number) => Ok(number),
            None => Err(Refusal::of_number(self.bytes, Expected::Number)),
        }
    }

    /// The value of at most 16 digits that it spells, with a sign or without.
    #[inline(always)]
    pub(crate) fn any_value(&self) -> Result<i64, Refusal<'a>>
        ensures { kinds result ≡ any_value self.now }
    {
        match read_value(self.bytes) {
            Some(value) => Ok(value),
            None => Err(Refusal::of_number(self.bytes, Expected::Value)),
        }
    }

    /// The number of one byte that it spells.
    #[inline(always)]
    pub(crate) fn byte(&self) -> Result<u8, Refusal<'a>>
        ensures { kinds result ≡ number_up_to MAX_BYTE self.now }
    {
        let number = self.number_up_to(MAX_BYTE, Expected::Byte)?;
        Ok(number as u8)
    }

    /// The state that it spells.
    #[inline(always)]
    pub(crate) fn state(&self) -> Result<u8, Refusal<'a>>
        ensures { kinds result ≡ number_up_to MAX_BYTE self.now }
    {
        let number = self.number_up_to(MAX_BYTE, Expected::State)?;
        Ok(number as u8)
    }

    /// The ID of a sensor or an effecter, or the count of bytes, that it spells.
    #[inline(always)]
    pub(crate) fn id(&self) -> Result<u16, Refusal<'a>>
        ensures { kinds result ≡ number_up_to MAX_ID self.now }
    {
        let number = self.number_up_to(MAX_ID, Expected::Id)?;
        Ok(number as u16)
    }

    /// The handle that it spells.
    #[inline(always)]
    pub(crate) fn handle(&self) -> Result<u32, Refusal<'a>>
        ensures { kinds result ≡ number_up_to MAX_HANDLE self.now }
    {
        let number = self.number_up_to(MAX_HANDLE, Expected::Handle)?;
        Ok(number as u32)
    }

    /// The timeout in milliseconds that it spells.
    #[inline(always)]
    pub(crate) fn timeout(&self) -> Result<u32, Refusal<'a>>
        ensures { kinds result ≡ number_up_to MAX_TIMEOUT self.now }
    {
        let number = self.number_up_to(MAX_TIMEOUT, Expected::Timeout)?;
        Ok(number as u32)
    }

    /// The endpoint ID that it spells.
    #[inline(always)]
    pub(crate) fn eid(&self) -> Result<Eid, Refusal<'a>>
        ensures { kinds result ≡ eid_in self.now }
    {
        let number = self.number_up_to(u64::from(MAX_EID), Expected::Eid)?;
        match Eid::new(number as u8) {
            Some(eid) => Ok(eid),
            None => Err(Refusal::of_number(self.bytes, Expected::Eid)),
        }
    }

    /// The moment that it spells.
    #[inline(always)]
    pub(crate) fn moment(&self) -> Result<Moment, Refusal<'a>>
        ensures { kinds result ≡ moment_in self.now }
    {
        let number = self.number_up_to(MAX_MOMENT, Expected::Moment)?;
        Ok(Moment::new(number).unwrap())
    }
}
