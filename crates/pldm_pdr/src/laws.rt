//! Laws over the definitions alone. Nothing is computed: each function's contract is its law.

ghost use Rattle.pldm_pdr.specs.Laws.{AllNamesAreSpelled, AllNamesAreTaken, EffecterNamesReadBack, EntityNamesReadBack, NamesAreSpelled, NamesAreTaken, SensorNamesReadBack, NumericEffecterReadBack, NumericSensorReadBack, OneRecord, RecordFits, RecordReadBack, StateEffecterReadBack, StateSensorReadBack, TerminusLocatorReadBack};

/// What a record is written as is read as the record, and no bytes are two records.
pub fn records_are_read_back()
    ensures read_back { RecordReadBack }
    ensures one { OneRecord }
{}

/// The fields of each type are read back from what they are written as, whatever follows.
pub fn fields_are_read_back()
    ensures terminus_locator { TerminusLocatorReadBack }
    ensures numeric_sensor { NumericSensorReadBack }
    ensures state_sensor { StateSensorReadBack }
    ensures numeric_effecter { NumericEffecterReadBack }
    ensures state_effecter { StateEffecterReadBack }
    ensures sensor_names { SensorNamesReadBack }
    ensures effecter_names { EffecterNamesReadBack }
    ensures entity_names { EntityNamesReadBack }
{}

/// The bytes of a record's names are names, spelled one after another; and names that are spelled so, and are not too
/// long, are the bytes of a record's names.
pub fn text_is_names()
    ensures spelled { NamesAreSpelled }
    ensures taken { NamesAreTaken }
    ensures all_spelled { AllNamesAreSpelled }
    ensures all_taken { AllNamesAreTaken }
{}

/// No record has more than [`crate::MAX_RECORD_BYTES`] bytes.
pub fn records_fit()
    ensures { RecordFits }
{}
