//! Decimal numbers in plain notation.

ghost use Rattle.std.specs.Prelude.{◌≡◌, ◌++◌, OnOk};
ghost use Rattle.mctpctl_table.specs.Decimals.{decimal_text, pointed, sign, size_text, with_zeros};

use crate::text::{push_bytes, push_repeated, push_text};
use itoa::Buffer;
use mctp_packet::Memory;

/// Adds number * 10 ^ exponent.
pub(crate) fn push_decimal(out: &mut Vec<u8>, number: i128, exponent: i16) -> Result<(), Memory>
    ensures { OnOk result (out.new.items ≡ out.old.items ++ decimal_text number exponent) }
{
    push_sign(out, number)?;
    push_size(out, number.unsigned_abs(), exponent)
}

/// Adds the sign of a number.
fn push_sign(out: &mut Vec<u8>, number: i128) -> Result<(), Memory>
    ensures { OnOk result (out.new.items ≡ out.old.items ++ sign number) }
{
    if number < 0 {
        push_text(out, "-")
    } else {
        Ok(())
    }
}

/// Adds the magnitude of a number, number * 10 ^ exponent.
#[tactic(auto, unfolding(crate::specs::Decimals::size_text))]
fn push_size(out: &mut Vec<u8>, number: u128, exponent: i16) -> Result<(), Memory>
    ensures { OnOk result (out.new.items ≡ out.old.items ++ size_text number exponent) }
{
    let places = usize::from(exponent.unsigned_abs());
    if exponent < 0 {
        let mut digits = Buffer::new();
        push_pointed(out, digits.format(number).as_bytes(), places)
    } else {
        push_with_zeros(out, number, places)
    }
}

/// Adds digits, the last `places` of them behind the point.
fn push_pointed(out: &mut Vec<u8>, digits: &[u8], places: usize) -> Result<(), Memory>
    ensures { OnOk result (out.new.items ≡ out.old.items ++ pointed digits.now places) }
{
    if places < digits.len() {
        let (whole, rest) = digits.split_at(digits.len() - places);
        push_bytes(out, whole)?;
        push_text(out, ".")?;
        push_bytes(out, rest)
    } else {
        push_text(out, "0.")?;
        push_repeated(out, b'0', places - digits.len())?;
        push_bytes(out, digits)
    }
}

/// Adds a number, and so many zeros.
fn push_with_zeros(out: &mut Vec<u8>, number: u128, zeros: usize) -> Result<(), Memory>
    ensures { OnOk result (out.new.items ≡ out.old.items ++ with_zeros number zeros) }
{
    if number == 0 {
        return push_text(out, "0");
    }
    let mut digits = Buffer::new();
    push_text(out, digits.format(number))?;
    push_repeated(out, b'0', zeros)
}
