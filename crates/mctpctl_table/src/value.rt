//! The value of a number of a numeric sensor or effecter.

ghost use Rattle.std.specs.Prelude.{◌≡◌, ◌++◌, OnOk};
ghost use Rattle.mctpctl_table.specs.Values.{converted, value_of, value_text};

use crate::decimal::{Decimal, product, sum};
use crate::decimal_text::push_decimal;
use crate::real32::real32_decimal;
use crate::text::{push_signed, push_text};
use crate::unit::{is_shown, push_unit};
use mctp_packet::Memory;
use pldm_pdr::{Conversion, Units};

/// A value, number * 10 ^ exponent.
#[derive(Clone, Copy, Debug)]
pub(crate) struct Value {
    pub(crate) number: i128,
    pub(crate) exponent: i16,
}

/// Adds the value of a number with its unit; the number as it is, and `raw`, where it has no exact value, or the unit
/// is more than is shown.
#[tactic(auto, unfolding(crate::specs::Values::value_text))]
pub(crate) fn push_value(
    out: &mut Vec<u8>,
    conversion: &Conversion,
    units: &Units,
    number: i64,
) -> Result<(), Memory>
    ensures { OnOk result (out.new.items ≡ out.old.items ++ value_text conversion.now units.now number) }
{
    match value_of(conversion, units, number) {
        Some(value) if is_shown(units) => {
            push_decimal(out, value.number, value.exponent)?;
            push_unit(out, units)
        }
        _ => {
            push_signed(out, number)?;
            push_text(out, " raw")
        }
    }
}

/// The value of a number, where values go with numbers in a line, and it is exact.
#[tactic(auto, unfolding(crate::specs::Values::value_of))]
fn value_of(conversion: &Conversion, units: &Units, number: i64) -> Option<Value>
    ensures { result ≡ value_of conversion.now units.now number }
{
    if !conversion.is_linear {
        return None;
    }
    let decimal = converted(conversion, number)?;
    Some(Value {
        number: decimal.number,
        exponent: i16::from(units.unit_modifier) - i16::from(decimal.places),
    })
}

/// number * resolution + offset.
fn converted(conversion: &Conversion, number: i64) -> Option<Decimal>
    ensures { result ≡ converted conversion.now number }
{
    let resolution = real32_decimal(conversion.resolution)?;
    let offset = real32_decimal(conversion.offset)?;
    let left = product(number, &resolution)?;
    sum(&left, &offset)
}
