//! The unit of a value.

ghost use Rattle.std.specs.Prelude.{◌≡◌, ◌++◌, OnOk, option_map};
ghost use Rattle.mctpctl_table.specs.Units.{base_unit_text, behind, is_shown, rate_name, unit_text};

use crate::text::push_text;
use mctp_packet::Memory;
use mctpctl_decode::unit_name;
use pldm_pdr::Units;

/// Whether a record says no more of a unit than is shown: a base unit and a rate, which have names.
#[tactic(auto, unfolding(crate::specs::Units::is_shown))]
pub(crate) fn is_shown(units: &Units) -> bool
    ensures { result ≡ is_shown units.now }
{
    units.auxiliary_unit == 0
        && unit_name(units.base_unit).is_some()
        && (units.rate_unit == 0 || rate_name(units.rate_unit).is_some())
}

/// Adds a space and the base unit, a slash and the time that it is taken per.
#[tactic(auto, unfolding(crate::specs::Units::unit_text))]
pub(crate) fn push_unit(out: &mut Vec<u8>, units: &Units) -> Result<(), Memory>
    ensures { OnOk result (out.new.items ≡ out.old.items ++ unit_text units.now) }
{
    if units.rate_unit == 0 && units.base_unit < 2 {
        return Ok(());
    }
    push_behind(out, b' ', base_unit_text(units.base_unit))?;
    push_behind(out, b'/', rate_name(units.rate_unit))
}

/// Adds a character and a name, if there is one.
fn push_behind(out: &mut Vec<u8>, character: u8, name: Option<&str>) -> Result<(), Memory>
    ensures { OnOk result (out.new.items
        ≡ out.old.items ++ behind character (option_map (λ text. text.now) name.entry)) }
{
    match name {
        Some(name) => {
            out.push(character)?;
            push_text(out, name)
        }
        None => Ok(()),
    }
}

/// A base unit by its symbol, where it has a usual one, else by its name (DSP0248, "Sensor units").
#[tactic(auto, unfolding(crate::specs::Units::base_unit_text))]
fn base_unit_text(unit: u8) -> Option<&'static str>
    ensures { option_map (λ text. text.now) result ≡ base_unit_text unit }
{
    match unit {
        2 => Some("°C"),
        3 => Some("°F"),
        4 => Some("K"),
        5 => Some("V"),
        6 => Some("A"),
        7 => Some("W"),
        8 => Some("J"),
        20 => Some("Hz"),
        65 => Some("%"),
        _ => unit_name(unit),
    }
}

/// The time that a unit is taken per (DSP0248, "Rate units").
#[tactic(auto, unfolding(crate::specs::Units::rate_name))]
fn rate_name(rate: u8) -> Option<&'static str>
    ensures { option_map (λ name. name.now) result ≡ rate_name rate }
{
    match rate {
        1 => Some("microsecond"),
        2 => Some("millisecond"),
        3 => Some("second"),
        4 => Some("minute"),
        5 => Some("hour"),
        6 => Some("day"),
        7 => Some("week"),
        8 => Some("month"),
        9 => Some("year"),
        _ => None,
    }
}
