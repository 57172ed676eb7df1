//! The names of units, as a description has them and in the same form.

ghost use Rattle.std.specs.Prelude.{◌≡◌, option_map};
ghost use Rattle.mctpctl_decode.specs.UnitNames.{counted_unit_name, electric_unit_name, matter_unit_name, rate_name, space_unit_name, unit_name};

/// The unit of this number (DSP0248, "Sensor units").
#[tactic(auto, unfolding(crate::specs::UnitNames::unit_name))]
pub fn unit_name(unit: u8) -> Option<&'static str>
    ensures { option_map (λ name. name.now) result ≡ unit_name unit }
{
    if unit < 22 {
        electric_unit_name(unit)
    } else if unit < 45 {
        space_unit_name(unit)
    } else if unit < 68 {
        matter_unit_name(unit)
    } else {
        counted_unit_name(unit)
    }
}

/// The first units of the list: of heat, electricity, light, force and flow.
#[tactic(auto, unfolding(crate::specs::UnitNames::electric_unit_name))]
fn electric_unit_name(unit: u8) -> Option<&'static str>
    ensures { option_map (λ name. name.now) result ≡ electric_unit_name unit }
{
    match unit {
        0 => Some("none"),
        1 => Some("unspecified"),
        2 => Some("degrees_c"),
        3 => Some("degrees_f"),
        4 => Some("kelvins"),
        5 => Some("volts"),
        6 => Some("amps"),
        7 => Some("watts"),
        8 => Some("joules"),
        9 => Some("coulombs"),
        10 => Some("va"),
        11 => Some("nits"),
        12 => Some("lumens"),
        13 => Some("lux"),
        14 => Some("candelas"),
        15 => Some("kpa"),
        16 => Some("psi"),
        17 => Some("newtons"),
        18 => Some("cfm"),
        19 => Some("rpm"),
        20 => Some("hertz"),
        21 => Some("seconds"),
        _ => None,
    }
}

/// Units of time, space, angle and weight.
#[tactic(auto, unfolding(crate::specs::UnitNames::space_unit_name))]
fn space_unit_name(unit: u8) -> Option<&'static str>
    ensures { option_map (λ name. name.now) result ≡ space_unit_name unit }
{
    match unit {
        22 => Some("minutes"),
        23 => Some("hours"),
        24 => Some("days"),
        25 => Some("weeks"),
        26 => Some("mils"),
        27 => Some("inches"),
        28 => Some("feet"),
        29 => Some("cubic_inches"),
        30 => Some("cubic_feet"),
        31 => Some("meters"),
        32 => Some("cubic_centimeters"),
        33 => Some("cubic_meters"),
        34 => Some("liters"),
        35 => Some("fluid_ounces"),
        36 => Some("radians"),
        37 => Some("steradians"),
        38 => Some("revolutions"),
        39 => Some("cycles"),
        40 => Some("gravities"),
        41 => Some("ounces"),
        42 => Some("pounds"),
        43 => Some("foot_pounds"),
        44 => Some("ounce_inches"),
        _ => None,
    }
}

/// Units of magnetism, matter, loudness, radiation and data.
#[tactic(auto, unfolding(crate::specs::UnitNames::matter_unit_name))]
fn matter_unit_name(unit: u8) -> Option<&'static str>
    ensures { option_map (λ name. name.now) result ≡ matter_unit_name unit }
{
    match unit {
        45 => Some("gauss"),
        46 => Some("gilberts"),
        47 => Some("henries"),
        48 => Some("farads"),
        49 => Some("ohms"),
        50 => Some("siemens"),
        51 => Some("moles"),
        52 => Some("becquerels"),
        53 => Some("ppm"),
        54 => Some("decibels"),
        55 => Some("dba"),
        56 => Some("dbc"),
        57 => Some("grays"),
        58 => Some("sieverts"),
        59 => Some("color_temperature_degrees_k"),
        60 => Some("bits"),
        61 => Some("bytes"),
        62 => Some("words"),
        63 => Some("double_words"),
        64 => Some("quad_words"),
        65 => Some("percent"),
        66 => Some("pascals"),
        67 => Some("counts"),
        _ => None,
    }
}

/// Units of counts, and of areas.
#[tactic(auto, unfolding(crate::specs::UnitNames::counted_unit_name))]
fn counted_unit_name(unit: u8) -> Option<&'static str>
    ensures { option_map (λ name. name.now) result ≡ counted_unit_name unit }
{
    match unit {
        68 => Some("grams"),
        69 => Some("newton_meters"),
        70 => Some("hits"),
        71 => Some("misses"),
        72 => Some("retries"),
        73 => Some("overruns"),
        74 => Some("underruns"),
        75 => Some("collisions"),
        76 => Some("packets"),
        77 => Some("messages"),
        78 => Some("characters"),
        79 => Some("errors"),
        80 => Some("corrected_errors"),
        81 => Some("uncorrectable_errors"),
        82 => Some("square_mils"),
        83 => Some("square_inches"),
        84 => Some("square_feet"),
        85 => Some("square_centimeters"),
        86 => Some("square_meters"),
        255 => Some("oem"),
        _ => None,
    }
}

/// The time that a unit is taken per (DSP0248, "Rate units").
#[tactic(auto, unfolding(crate::specs::UnitNames::rate_name))]
pub fn rate_name(rate: u8) -> Option<&'static str>
    ensures { option_map (λ name. name.now) result ≡ rate_name rate }
{
    match rate {
        0 => Some("none"),
        1 => Some("per_microsecond"),
        2 => Some("per_millisecond"),
        3 => Some("per_second"),
        4 => Some("per_minute"),
        5 => Some("per_hour"),
        6 => Some("per_day"),
        7 => Some("per_week"),
        8 => Some("per_month"),
        9 => Some("per_year"),
        _ => None,
    }
}
