//! Decimal digits of numbers, written straight to their place in a buffer.

ghost use Rattle.std.specs.Fmt.{decimal};
ghost use Rattle.std.specs.Prelude.{◌≡◌, ◌≤◌, ◌<◌, ◌+◌, ◌++◌, ◌∷◌, [], length, take};

use itoa::write_digits;

/// The most digits of a number of 64 bits.
const MAX_DIGITS: usize = 20;

/// How many digits a number has.
fn digit_count(number: u64) -> usize
    ensures count { result ≡ length (decimal number) }
    ensures few { result ≤ MAX_DIGITS }
{
    match number.checked_ilog10() {
        Some(power) => power as usize + 1,
        None => 1, // of 0
    }
}

/// Puts the digits of a number into `room` from `start` on, and returns where they end.
// The digits are not made elsewhere and copied: a processor has to wait before it copies bytes that were just stored
// one by one.
pub(crate) fn put_digits(room: &mut [u8], start: usize, number: u64) -> usize
    requires { start + MAX_DIGITS ≤ length room.old }
    ensures text { take result room.new ≡ take start room.old ++ decimal number }
    ensures few { result ≤ start + MAX_DIGITS }
    ensures length { length room.new ≡ length room.old }
{
    let end = start + digit_count(number);
    write_digits(number, room, end);
    end
}

/// As `put_digits`, with a byte behind the digits.
pub(crate) fn put_number(room: &mut [u8], start: usize, number: u64, end: u8) -> usize
    requires { start + MAX_DIGITS < length room.old }
    ensures text { take result room.new ≡ take start room.old ++ (decimal number ++ end ∷ []) }
    ensures few { result ≤ start + MAX_DIGITS + 1 }
    ensures length { length room.new ≡ length room.old }
{
    let place = put_digits(room, start, number);
    room[place] = end;
    place + 1
}
