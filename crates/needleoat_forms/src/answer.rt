//! The struct by which an answer crosses to C: the fields of a response (DSP0240, DSP0248).

ghost use Rattle.std.specs.Prelude.{◌≡◌, Some};
ghost use Rattle.pldm_wire.specs.Answers.{IsAnswerTo};
ghost use Rattle.needleoat_forms.specs.Answers.{answer_in, kind_in};

use crate::room::put_front;
use crate::states::{EffecterState, SensorState, put_effecter_states, put_sensor_states};
use pldm_wire::{
    Answer, COMMANDS_BYTES, Kind, MAX_PART_BYTES, MAX_STATES, TIME_BYTES, TYPES_BYTES,
};

/// A response's instance ID, the command that it answers, its completion code and the answer's
/// fields (DSP0240, DSP0248). Those that the answer does not have mean nothing after reading and are
/// not looked at in writing; an answer whose code is not 0 has none.
#[repr(C)]
#[derive(Clone, Copy)]
pub struct AnswerFields {
    /// The instance ID, 0 to 31.
    pub instance_id: u8,
    /// The PLDM type of the command.
    pub pldm_type: u8,
    /// The command's number in that type.
    pub command: u8,
    /// The completion code: 0 for success, otherwise the command was refused.
    pub code: u8,
    /// GetTID: the terminus ID.
    pub tid: u8,
    /// GetPDR: the transfer flag, 0 Start, 1 Middle (2 is read as a middle too), 4 End,
    /// 5 StartAndEnd.
    pub transfer_flag: u8,
    /// GetPDR: the whole record's checksum, where the transfer flag is 4.
    pub transfer_crc: u8,
    /// GetSensorReading, GetNumericEffecterValue: the data size of the values, 0 uint8, 1 sint8,
    /// 2 uint16, 3 sint16, 4 uint32, 5 sint32.
    pub size: u8,
    /// GetSensorReading, GetNumericEffecterValue: the operational state.
    pub operational: u8,
    /// GetSensorReading: which of the sensor's events are enabled.
    pub sensor_event_message_enable: u8,
    /// GetSensorReading: the state that the sensor reports now.
    pub present: u8,
    /// GetSensorReading: the state before that one.
    pub previous: u8,
    /// GetSensorReading: the state of the sensor's latest event.
    pub event: u8,
    /// GetStateSensorReadings, GetStateEffecterStates: how many fields there are, 1 to
    /// [`MAX_STATES`].
    pub count: u8,
    /// GetPDRRepositoryInfo: the repository's state, 0 available.
    pub repository_state: u8,
    /// GetPDRRepositoryInfo: for how long a transfer may pause, as a code.
    pub timeout: u8,
    /// GetPDR: the handle of the record after this one, or 0.
    pub next_record_handle: u32,
    /// GetPLDMVersion, GetPDR: which part comes next, or 0.
    pub next_data_transfer_handle: u32,
    /// GetPDRRepositoryInfo: how many records there are.
    pub record_count: u32,
    /// GetPDRRepositoryInfo: the size of the repository in bytes.
    pub repository_size: u32,
    /// GetPDRRepositoryInfo: the size of its largest record in bytes.
    pub largest_record_size: u32,
    /// GetSensorReading: the reading. GetNumericEffecterValue: the value that the effecter has.
    pub value: i64,
    /// GetNumericEffecterValue: the value that the effecter is going to.
    pub pending_value: i64,
    /// GetPLDMVersion, GetPDR: how many of `bytes` there are.
    pub length: u32,
    /// GetStateSensorReadings: the fields, the first `count` of these.
    pub sensor_states: [SensorState; MAX_STATES],
    /// GetStateEffecterStates: the fields, the first `count` of these.
    pub effecter_states: [EffecterState; MAX_STATES],
    /// GetPLDMTypes: type t is bit t mod 8 of byte t / 8.
    pub types: [u8; TYPES_BYTES],
    /// GetPLDMCommands: command c is bit c mod 8 of byte c / 8.
    pub commands: [u8; COMMANDS_BYTES],
    /// GetPDRRepositoryInfo: when the repository was last changed.
    pub update_time: [u8; TIME_BYTES],
    /// GetPDRRepositoryInfo: when its OEM records were last changed.
    pub oem_update_time: [u8; TIME_BYTES],
    /// GetPLDMVersion: the versions, four bytes each, 4 to 32 bytes in all. GetPDR: the part of the
    /// record, at most [`MAX_PART_BYTES`].
    pub bytes: [u8; MAX_PART_BYTES],
}

// As in `include/needleoat.h`.
const _: () = prove!(size_of::<AnswerFields>() == 488);

impl AnswerFields {
    /// Each field is 0.
    const NONE: AnswerFields = AnswerFields {
        instance_id: 0,
        pldm_type: 0,
        command: 0,
        code: 0,
        tid: 0,
        transfer_flag: 0,
        transfer_crc: 0,
        size: 0,
        operational: 0,
        sensor_event_message_enable: 0,
        present: 0,
        previous: 0,
        event: 0,
        count: 0,
        repository_state: 0,
        timeout: 0,
        next_record_handle: 0,
        next_data_transfer_handle: 0,
        record_count: 0,
        repository_size: 0,
        largest_record_size: 0,
        value: 0,
        pending_value: 0,
        length: 0,
        sensor_states: [SensorState {
            operational: 0,
            present: 0,
            previous: 0,
            event: 0,
        }; MAX_STATES],
        effecter_states: [EffecterState {
            operational: 0,
            pending: 0,
            present: 0,
        }; MAX_STATES],
        types: [0; TYPES_BYTES],
        commands: [0; COMMANDS_BYTES],
        update_time: [0; TIME_BYTES],
        oem_update_time: [0; TIME_BYTES],
        bytes: [0; MAX_PART_BYTES],
    };

    /// Puts an answer to a command of this kind, with an instance ID, in the place of what is there.
    #[tactic(auto, unfolding(crate::specs::Answers::answer_in))]
    pub fn set(&mut self, instance_id: u8, kind: Kind, answer: &Answer)
        requires { IsAnswerTo kind answer.now }
        ensures instance_id { self.new.instance_id ≡ instance_id }
        ensures kind { kind_in self.new ≡ kind }
        ensures answer { answer_in self.new ≡ Some answer.now }
    {
        *self = AnswerFields::NONE;
        self.instance_id = instance_id;
        self.pldm_type = kind.pldm_type;
        self.command = kind.command;
        match answer {
            Answer::Refused(code) => {
                self.code = code.get();
            }
            Answer::SetTid => {}
            Answer::GetTid { tid } => {
                self.tid = *tid;
            }
            Answer::GetPldmVersion {
                next_data_transfer_handle,
                versions,
            } => {
                self.next_data_transfer_handle = *next_data_transfer_handle;
                self.length = put_front(&mut self.bytes, versions.as_slice());
            }
            Answer::GetPldmTypes { types } => {
                self.types = *types;
            }
            Answer::GetPldmCommands { commands } => {
                self.commands = *commands;
            }
            Answer::GetSensorReading {
                operational,
                sensor_event_message_enable,
                present,
                previous,
                event,
                reading,
            } => {
                self.size = reading.size().code();
                self.operational = *operational;
                self.sensor_event_message_enable = *sensor_event_message_enable;
                self.present = *present;
                self.previous = *previous;
                self.event = *event;
                self.value = reading.value();
            }
            Answer::GetStateSensorReadings { fields } => {
                self.count = fields.as_slice().len() as u8;
                put_sensor_states(&mut self.sensor_states, fields);
            }
            Answer::SetNumericEffecterValue => {}
            Answer::GetNumericEffecterValue {
                operational,
                values,
            } => {
                self.size = values.present().size().code();
                self.operational = *operational;
                self.value = values.present().value();
                self.pending_value = values.pending().value();
            }
            Answer::SetStateEffecterStates => {}
            Answer::GetStateEffecterStates { fields } => {
                self.count = fields.as_slice().len() as u8;
                put_effecter_states(&mut self.effecter_states, fields);
            }
            Answer::GetPdrRepositoryInfo {
                state,
                update_time,
                oem_update_time,
                record_count,
                repository_size,
                largest_record_size,
                timeout,
            } => {
                self.repository_state = *state;
                self.update_time = *update_time;
                self.oem_update_time = *oem_update_time;
                self.record_count = *record_count;
                self.repository_size = *repository_size;
                self.largest_record_size = *largest_record_size;
                self.timeout = *timeout;
            }
            Answer::GetPdr {
                next_record_handle,
                next_data_transfer_handle,
                part,
            } => {
                self.length = put_front(&mut self.bytes, part.as_slice());
                self.next_record_handle = *next_record_handle;
                self.next_data_transfer_handle = *next_data_transfer_handle;
                self.transfer_flag = part.flag().number();
                self.transfer_crc = part.transfer_crc().unwrap_or(0);
            }
        }
    }
}
