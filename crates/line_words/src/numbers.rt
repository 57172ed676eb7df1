//! Decimal numbers.

ghost use Rattle.std.specs.Prelude.{◌≡◌, ◌≤◌, ◌<◌, ◌^◌, IfSome, Some, length, take, true};
ghost use Rattle.std.specs.List.{list_all};
ghost use Rattle.line_words.specs.Numbers.{decimal_of, decimal_value, is_digit, number_of, value_of};

/// The most decimal digits of a number in a line.
pub const MAX_DIGITS: usize = 16;

/// The number that a word of 1 to [`MAX_DIGITS`] decimal digits spells, where it is at most `most`.
pub fn read_number(word: &[u8], most: u64) -> Option<u64>
    ensures value { result ≡ number_of most word.now }
    ensures range { IfSome result (λ number. number ≤ most) }
{
    let number = read_decimal(word)?;
    if number <= most { Some(number) } else { None }
}

/// The value that a word of 1 to [`MAX_DIGITS`] decimal digits spells, with `-` in front or without.
pub fn read_value(word: &[u8]) -> Option<i64>
    ensures { result ≡ value_of word.now }
{
    match word {
        [b'-', digits @ ..] => Some(-(read_decimal(digits)? as i64)),
        _ => Some(read_decimal(word)? as i64),
    }
}

/// The number that a word of 1 to [`MAX_DIGITS`] decimal digits spells.
pub fn read_decimal(word: &[u8]) -> Option<u64>
    ensures value { result ≡ decimal_of word.now }
    ensures range { IfSome result (λ number. number < 10 ^ MAX_DIGITS) }
{
    if word.is_empty() || word.len() > MAX_DIGITS {
        return None;
    }
    let mut value = 0;
    for digit in word {
        if !digit.is_ascii_digit() {
            return None;
        }
        value = value * 10 + u64::from(*digit - b'0');
    }
    Some(value)
}

/// The value of the digits that a text begins with, and how many they are: of more than [`MAX_DIGITS`] the first
/// ones alone are read.
pub(crate) fn leading_digits(text: &[u8]) -> (u64, usize)
    ensures value { result.0 ≡ decimal_value (take result.1 text.now) }
    ensures digits { list_all is_digit (take result.1 text.now) ≡ true }
    ensures few { result.1 ≤ MAX_DIGITS }
    ensures within { result.1 ≤ length text.now }
{
    let mut value = 0;
    let mut count = 0;
    while count < MAX_DIGITS {
        match text.get(count) {
            Some(digit) if digit.is_ascii_digit() => value = value * 10 + u64::from(*digit - b'0'),
            _ => break,
        }
        count += 1;
    }
    (value, count)
}
