//! The struct by which a command crosses to C: the fields of a request (DSP0240, DSP0248).

ghost use Rattle.std.specs.Prelude.{◌≡◌, Some};
ghost use Rattle.needleoat_forms.specs.Commands.{command_in};

use crate::states::{SetState, put_sets};
use pldm_wire::{
    BASE, Command, GET_NUMERIC_EFFECTER_VALUE, GET_PDR, GET_PDR_REPOSITORY_INFO, GET_PLDM_COMMANDS,
    GET_PLDM_TYPES, GET_PLDM_VERSION, GET_SENSOR_READING, GET_STATE_EFFECTER_STATES,
    GET_STATE_SENSOR_READINGS, GET_TID, MAX_STATES, PLATFORM, SET_NUMERIC_EFFECTER_VALUE,
    SET_STATE_EFFECTER_STATES, SET_TID, VERSION_BYTES,
};

/// A request's instance ID and its command with the command's fields (DSP0240, DSP0248). Those that
/// the command does not have mean nothing after reading and are not looked at in writing.
#[repr(C)]
#[derive(Clone, Copy)]
pub struct CommandFields {
    /// The instance ID, 0 to 31.
    pub instance_id: u8,
    /// The PLDM type: 0 or 2.
    pub pldm_type: u8,
    /// The command's number in that type.
    pub command: u8,
    /// SetTID: the terminus ID, any byte.
    pub tid: u8,
    /// GetPLDMVersion, GetPLDMCommands: the PLDM type that is asked about.
    pub asked_type: u8,
    /// GetPLDMVersion, GetPDR: 0 GetNextPart, 1 GetFirstPart, or any other byte.
    pub transfer_operation_flag: u8,
    /// GetSensorReading, GetStateSensorReadings: which event states are to be rearmed, any byte.
    pub rearm: u8,
    /// SetNumericEffecterValue: the data size of `value`, 0 uint8, 1 sint8, 2 uint16, 3 sint16,
    /// 4 uint32, 5 sint32.
    pub size: u8,
    /// SetStateEffecterStates: how many fields there are, 1 to [`MAX_STATES`].
    pub count: u8,
    /// GetSensorReading, GetStateSensorReadings: the sensor ID.
    pub sensor: u16,
    /// The four commands of effecters: the effecter ID.
    pub effecter: u16,
    /// GetPDR: the most bytes of the record that are asked for.
    pub request_count: u16,
    /// GetPDR: the record's change number, or 0 for the first part.
    pub record_change_number: u16,
    /// GetPLDMVersion, GetPDR: which part is asked for, as the last answer had it.
    pub data_transfer_handle: u32,
    /// GetPDR: the record's handle. 0 asks for the first record.
    pub record_handle: u32,
    /// SetNumericEffecterValue: the value, which fits the size.
    pub value: i64,
    /// GetPLDMCommands: the version of the type, as GetPLDMVersion's answer has it.
    pub version: [u8; VERSION_BYTES],
    /// SetStateEffecterStates: the fields, the first `count` of these.
    pub sets: [SetState; MAX_STATES],
}

// As in `include/needleoat.h`.
const _: () = prove!(size_of::<CommandFields>() == 64);

impl CommandFields {
    /// Each field is 0.
    const NONE: CommandFields = CommandFields {
        instance_id: 0,
        pldm_type: 0,
        command: 0,
        tid: 0,
        asked_type: 0,
        transfer_operation_flag: 0,
        rearm: 0,
        size: 0,
        count: 0,
        sensor: 0,
        effecter: 0,
        request_count: 0,
        record_change_number: 0,
        data_transfer_handle: 0,
        record_handle: 0,
        value: 0,
        version: [0; VERSION_BYTES],
        sets: [SetState {
            set_request: 0,
            state: 0,
        }; MAX_STATES],
    };

    /// Puts a command with an instance ID in the place of what is there.
    #[tactic(auto, unfolding(crate::specs::Commands::command_in))]
    pub fn set(&mut self, instance_id: u8, command: &Command)
        ensures instance_id { self.new.instance_id ≡ instance_id }
        ensures command { command_in self.new ≡ Some command.now }
    {
        *self = CommandFields::NONE;
        self.instance_id = instance_id;
        match command {
            Command::SetTid { tid } => {
                self.pldm_type = BASE;
                self.command = SET_TID;
                self.tid = *tid;
            }
            Command::GetTid => {
                self.pldm_type = BASE;
                self.command = GET_TID;
            }
            Command::GetPldmVersion {
                data_transfer_handle,
                transfer_operation_flag,
                pldm_type,
            } => {
                self.pldm_type = BASE;
                self.command = GET_PLDM_VERSION;
                self.data_transfer_handle = *data_transfer_handle;
                self.transfer_operation_flag = *transfer_operation_flag;
                self.asked_type = *pldm_type;
            }
            Command::GetPldmTypes => {
                self.pldm_type = BASE;
                self.command = GET_PLDM_TYPES;
            }
            Command::GetPldmCommands { pldm_type, version } => {
                self.pldm_type = BASE;
                self.command = GET_PLDM_COMMANDS;
                self.asked_type = *pldm_type;
                self.version = *version;
            }
            Command::GetSensorReading { sensor, rearm } => {
                self.pldm_type = PLATFORM;
                self.command = GET_SENSOR_READING;
                self.sensor = *sensor;
                self.rearm = *rearm;
            }
            Command::GetStateSensorReadings { sensor, rearm } => {
                self.pldm_type = PLATFORM;
                self.command = GET_STATE_SENSOR_READINGS;
                self.sensor = *sensor;
                self.rearm = *rearm;
            }
            Command::SetNumericEffecterValue { effecter, value } => {
                self.pldm_type = PLATFORM;
                self.command = SET_NUMERIC_EFFECTER_VALUE;
                self.effecter = *effecter;
                self.size = value.size().code();
                self.value = value.value();
            }
            Command::GetNumericEffecterValue { effecter } => {
                self.pldm_type = PLATFORM;
                self.command = GET_NUMERIC_EFFECTER_VALUE;
                self.effecter = *effecter;
            }
            Command::SetStateEffecterStates { effecter, fields } => {
                self.pldm_type = PLATFORM;
                self.command = SET_STATE_EFFECTER_STATES;
                self.effecter = *effecter;
                self.count = fields.as_slice().len() as u8;
                put_sets(&mut self.sets, fields);
            }
            Command::GetStateEffecterStates { effecter } => {
                self.pldm_type = PLATFORM;
                self.command = GET_STATE_EFFECTER_STATES;
                self.effecter = *effecter;
            }
            Command::GetPdrRepositoryInfo => {
                self.pldm_type = PLATFORM;
                self.command = GET_PDR_REPOSITORY_INFO;
            }
            Command::GetPdr {
                record_handle,
                data_transfer_handle,
                transfer_operation_flag,
                request_count,
                record_change_number,
            } => {
                self.pldm_type = PLATFORM;
                self.command = GET_PDR;
                self.record_handle = *record_handle;
                self.data_transfer_handle = *data_transfer_handle;
                self.transfer_operation_flag = *transfer_operation_flag;
                self.request_count = *request_count;
                self.record_change_number = *record_change_number;
            }
        }
    }
}
