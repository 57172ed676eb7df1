//! The names of units in a description.

ghost use Rattle.std.specs.Prelude.{◌≡◌};
ghost use Rattle.pldm_device.specs.UnitNames.{rarer_unit_named, unit_named};

/// The number of the unit of this name (DSP0248, "Sensor units"), where it is one that things are measured in most.
pub(crate) fn unit_named(name: &str) -> Option<u8>
    ensures { result ≡ unit_named name.now }
{
    if name == "none" {
        Some(0)
    } else if name == "degrees_c" {
        Some(2)
    } else if name == "volts" {
        Some(5)
    } else if name == "amps" {
        Some(6)
    } else if name == "watts" {
        Some(7)
    } else if name == "joules" {
        Some(8)
    } else if name == "cfm" {
        Some(18)
    } else {
        rarer_unit_named(name)
    }
}

/// The number of one of the other units of these.
fn rarer_unit_named(name: &str) -> Option<u8>
    ensures { result ≡ rarer_unit_named name.now }
{
    if name == "rpm" {
        Some(19)
    } else if name == "hertz" {
        Some(20)
    } else if name == "seconds" {
        Some(21)
    } else if name == "bits" {
        Some(60)
    } else if name == "bytes" {
        Some(61)
    } else if name == "percent" {
        Some(65)
    } else if name == "pascals" {
        Some(66)
    } else if name == "counts" {
        Some(67)
    } else {
        None
    }
}
