//! A real32 (IEEE 754, binary32) as the shortest decimal that is rounded to it.

ghost use Rattle.std.specs.Prelude.{◌≡◌, ◌≤◌, ◌<◌, ◌+◌, ◌*◌, ◌^◌, IfSome};
ghost use Rattle.mctpctl_table.specs.Real32s.{is_rounded, nearest, real32_decimal, shortest, with_sign};

use crate::decimal::{Decimal, MAX_PLACES, power_of_ten};

/// The bits of a fraction.
const FRACTION: u32 = 0x80_0000;

/// The decimal of the real32 of these bits; none for one that is no number, of 2 ^ 24 or more, or that has more than
/// [`MAX_PLACES`] places.
#[tactic(auto, unfolding(crate::specs::Real32s::real32_decimal))]
pub(crate) fn real32_decimal(bits: u32) -> Option<Decimal>
    ensures value { result ≡ real32_decimal bits }
    ensures places { IfSome result (λ decimal. decimal.places ≤ MAX_PLACES) }
{
    if bits % 0x8000_0000 == 0 {
        return Some(Decimal {
            number: 0,
            places: 0,
        });
    }
    let exponent = bits / FRACTION % 0x100;
    if !(90 <= exponent && exponent <= 150) {
        return None;
    }
    let significand = FRACTION + bits % FRACTION;
    let found = shortest(significand.into(), power_of_two(150 - exponent))?;
    Some(with_sign(bits >= 0x8000_0000, &found))
}

/// 2 to this power.
fn power_of_two(power: u32) -> u64
    requires { power ≤ 60 }
    ensures value { result ≡ 2 ^ power }
    ensures range { (0 < result) × (result ≤ 2 ^ 60) }
{
    2u64.pow(power)
}

/// The digits and places of the shortest decimal that is rounded to n / unit.
#[tactic(auto, unfolding(crate::specs::Real32s::shortest))]
fn shortest(n: u64, unit: u64) -> Option<(u64, u8)>
    requires n { (0 < n) × (n < 2 ^ 24) }
    requires unit { (0 < unit) × (unit ≤ 2 ^ 60) }
    ensures value { result ≡ shortest n unit }
    ensures places { IfSome result (λ found. found.1 ≤ MAX_PLACES) }
{
    for places in 0..MAX_PLACES + 1 {
        let scale = power_of_ten(places);
        let digits = nearest(n * scale, unit);
        if is_rounded(n, unit, scale, digits) {
            return Some((digits, places));
        }
    }
    None
}

/// The whole number nearest to a / b; of two that are as near, the even one.
fn nearest(a: u64, b: u64) -> u64
    requires a { a ≤ 2 ^ 58 }
    requires b { (0 < b) × (b ≤ 2 ^ 60) }
    ensures value { result ≡ nearest a b }
    ensures near { 2 * (result * b) ≤ 2 * a + b }
{
    let (down, rest) = (a / b, a % b);
    if 2 * rest < b {
        down
    } else if b < 2 * rest {
        down + 1
    } else if down % 2 == 0 {
        down
    } else {
        down + 1
    }
}

/// Whether the real32 nearest to digits / scale is n / unit.
fn is_rounded(n: u64, unit: u64, scale: u64, digits: u64) -> bool
    requires n { (0 < n) × (n < 2 ^ 24) }
    requires unit { (0 < unit) × (unit ≤ 2 ^ 60) }
    requires scale { scale ≤ 10_000_000_000 }
    requires near { 2 * (digits * unit) ≤ 2 * (n * scale) + unit }
    ensures { result ≡ is_rounded n unit scale digits }
{
    let lower = if n == 0x80_0000 { 4 * n - 1 } else { 4 * n - 2 };
    let decimal = 4 * (digits * unit);
    lower * scale < decimal && decimal < (4 * n + 2) * scale
}

/// Digits and places with a sign.
fn with_sign(negative: bool, found: &(u64, u8)) -> Decimal
    ensures value { result ≡ with_sign negative found.now }
    ensures places { result.places ≡ found.now.1 }
{
    let (digits, places) = *found;
    let number = if negative {
        -i128::from(digits)
    } else {
        digits.into()
    };
    Decimal { number, places }
}
