//! The names of the types of records, and of the faults for which bytes are no record.

ghost use Rattle.std.specs.Prelude.{◌≡◌, option_map};
ghost use Rattle.mctpctl_decode.specs.RecordNames.{fault_name, type_name};

use pldm_pdr::RecordFault;

/// The type of a record (DSP0248, "PDR type values").
#[tactic(auto, unfolding(crate::specs::RecordNames::type_name))]
pub fn type_name(number: u8) -> Option<&'static str>
    ensures { option_map (λ name. name.now) result ≡ type_name number }
{
    match number {
        1 => Some("TerminusLocator"),
        2 => Some("NumericSensor"),
        3 => Some("NumericSensorInitialization"),
        4 => Some("StateSensor"),
        5 => Some("StateSensorInitialization"),
        6 => Some("SensorAuxiliaryNames"),
        7 => Some("OEMUnit"),
        8 => Some("OEMStateSet"),
        9 => Some("NumericEffecter"),
        10 => Some("NumericEffecterInitialization"),
        11 => Some("StateEffecter"),
        12 => Some("StateEffecterInitialization"),
        13 => Some("EffecterAuxiliaryNames"),
        14 => Some("EffecterOEMSemantic"),
        15 => Some("EntityAssociation"),
        16 => Some("EntityAuxiliaryNames"),
        17 => Some("OEMEntityID"),
        18 => Some("InterruptAssociation"),
        19 => Some("PDREventLog"),
        20 => Some("FRURecordSet"),
        21 => Some("CompactNumericSensor"),
        126 => Some("OEMDevice"),
        127 => Some("OEM"),
        _ => None,
    }
}

/// Why bytes are no record.
#[tactic(auto, unfolding(crate::specs::RecordNames::fault_name))]
pub fn fault_name(fault: RecordFault) -> &'static str
    ensures { result.now ≡ fault_name fault }
{
    match fault {
        RecordFault::Length => "Length",
        RecordFault::Version => "Version",
        RecordFault::OtherType => "OtherType",
        RecordFault::Short => "Short",
        RecordFault::Flag => "Flag",
        RecordFault::Locator => "Locator",
        RecordFault::Size => "Size",
        RecordFault::Format => "Format",
        RecordFault::Count => "Count",
        RecordFault::States => "States",
        RecordFault::Shared => "Shared",
        RecordFault::Tag => "Tag",
        RecordFault::Names => "Names",
        RecordFault::LeftOver => "LeftOver",
    }
}
