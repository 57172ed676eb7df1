//! What a description may say at a place, in words.

ghost use Rattle.std.specs.Prelude.{◌≡◌, [], IfOk, string_bytes};
ghost use Rattle.mctpctl_explain.specs.AllowedWords.{IsNoFlaw, SaysAllowed};

use crate::expected::SIZES;
use crate::suggest::choice;
use mctp_packet::Memory;
use pldm_device::{Allowed, RecordFlaw};
use std::alloc::Global;

/// What is allowed, in words; nothing where that is not said. Which words stand for what is not counted is tested.
pub(crate) fn allowed_text(alloc: Global, allowed: Allowed) -> Result<String, Memory>
    ensures { IfOk result (λ text. SaysAllowed allowed (string_bytes text)) }
{
    match allowed {
        Allowed::Tables(most) => Ok(format!(in alloc; "a list of at most {most} tables")?),
        Allowed::Integer { low, high } => {
            Ok(format!(in alloc; "an integer from {low} to {high}")?)
        }
        Allowed::Numbers { least, most, high } => numbers_text(alloc, least, most, high),
        Allowed::HexBytes(count) => Ok(format!(in alloc; "hex text of {count} bytes")?),
        Allowed::Versions(most) => {
            Ok(format!(in alloc; "hex text of 1 to {most} versions of 4 bytes")?)
        }
        Allowed::CheckedVersions(most) => Ok(format!(in alloc;
            "hex text of 1 to {most} versions of 4 bytes, since version_checksum appends 4 more"
        )?),
        Allowed::SizeNames => choice(alloc, &SIZES),
        Allowed::Name(most) => {
            Ok(format!(in alloc; "a text of 1 to {most} printed ASCII characters")?)
        }
        _ => Ok(String::from_str(alloc, fixed_text(allowed))?),
    }
}

/// How many numbers of which range, in words.
fn numbers_text(alloc: Global, least: usize, most: usize, high: u32) -> Result<String, Memory> {
    if least == most {
        return Ok(format!(in alloc; "an array of {most} integers from 0 to {high}")?);
    }
    Ok(format!(in alloc; "an array of {least} to {most} integers from 0 to {high}")?)
}

/// What is allowed, where its words are always the same.
fn fixed_text(allowed: Allowed) -> &'static str {
    match allowed {
        Allowed::Flag => "true or false",
        Allowed::Table => "a table",
        Allowed::AnyInteger => "an integer",
        Allowed::SizedInteger => "an integer of that size",
        Allowed::FromMin => "an integer not below min",
        Allowed::MinToMax => "an integer from min to max",
        Allowed::Integers => "an array of integers",
        Allowed::IntegerLists => "an array of 1 to 8 arrays of integers",
        Allowed::SensorStates => "an array of 3 states",
        Allowed::SensorFields => "an array of 1 to 8 arrays of 4 states",
        Allowed::FieldStates => "an array of 1 to 8 arrays of states",
        Allowed::StateOfEach => "a state for each field",
        Allowed::AsManyStates => "as many states as allowed has arrays",
        Allowed::AllowedState => "a state of the field's array in allowed",
        Allowed::HexText => "two hex digits for each byte",
        Allowed::RecordText => "a record as hex text",
        Allowed::RestartPolicy => "'all' or 'sets'",
        Allowed::SizeName => "the name of a data size",
        Allowed::Unit => "an integer from 0 to 255, or a unit by its name, as 'degrees_c' or 'rpm'",
        Allowed::FittingRecords => "a table with handles and room left for its records",
        _ => "",
    }
}

/// Why bytes are no record (DSP0248, "Common PDR format"), which is tested; nothing where that is not said.
pub(crate) fn flaw_text(allowed: Allowed) -> &'static str
    ensures { IsNoFlaw allowed → result.now ≡ [] }
{
    let Allowed::Record(flaw) = allowed else {
        return "";
    };
    match flaw {
        RecordFlaw::Short => "the record has fewer bytes than its header of 10",
        RecordFlaw::NoHandle => "the record's handle, bytes 0 to 3, is 0: expected another",
        RecordFlaw::Version => "the record's header version, byte 4, is not 1",
        RecordFlaw::Count => {
            "the count of data, bytes 8 and 9, lowest first, is not that of the bytes after the header"
        }
    }
}
