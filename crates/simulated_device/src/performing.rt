//! The simulated device performs commands.

ghost use Rattle.std.specs.Prelude.{◌≡◌, true};
ghost use Rattle.simulated_device.specs.DeviceAnswers.{after, answer};
ghost use Rattle.simulated_device.specs.DeviceLaws.{answers_the_command, reads_only, refusal_changes_nothing};
ghost use Rattle.simulated_device.specs.EffecterAnswers.{outcome_answered};
ghost use Rattle.simulated_device.specs.SensorAnswers.{sensed};

use crate::device::{SimDevice, put_commands, types_answer};
use mctp_packet::Memory;
use pldm_platform::{Platform, ReadingFault};
use pldm_records::{put_record_part, repository_info};
use pldm_wire::{Answer, Code, Command};
use std::alloc::Global;

impl SimDevice {
    // Performs the command and puts its answer into `given`.
    // Not inlined, so that the answer is written where it is wanted and not copied there.
    #[inline(never)]
    fn answer_into(&mut self, command: &Command, given: &mut Answer)
        ensures answer { given.new ≡ answer self.old command.now }
        ensures after { self.new ≡ after self.old command.now }
    {
        match command {
            Command::SetTid { tid } => {
                *given = Answer::SetTid;
                put_outcome(given, self.set_tid(*tid));
            }
            Command::GetTid => *given = Answer::GetTid { tid: self.tid() },
            Command::GetPldmVersion {
                transfer_operation_flag,
                pldm_type,
                ..
            } => self.put_versions(*transfer_operation_flag, *pldm_type, given),
            Command::GetPldmTypes => *given = types_answer(),
            Command::GetPldmCommands { pldm_type, .. } => put_commands(*pldm_type, given),
            Command::GetSensorReading { sensor, .. } => self.put_reading(*sensor, given),
            Command::GetStateSensorReadings { sensor, .. } => self.put_sensor_states(
                *sensor, given,
            ),
            Command::SetNumericEffecterValue { effecter, value } => {
                *given = Answer::SetNumericEffecterValue;
                put_outcome(given, self.set_number(*effecter, *value));
            }
            Command::GetNumericEffecterValue { effecter } => self.put_value(*effecter, given),
            Command::SetStateEffecterStates { effecter, fields } => {
                *given = Answer::SetStateEffecterStates;
                put_outcome(given, self.set_states(*effecter, fields));
            }
            Command::GetStateEffecterStates { effecter } => {
                self.put_effecter_states(*effecter, given)
            }
            Command::GetPdrRepositoryInfo => *given = repository_info(
                &self.records,
                self.update_time,
                self.oem_update_time,
            ),
            Command::GetPdr {
                record_handle,
                data_transfer_handle,
                transfer_operation_flag,
                request_count,
                ..
            } => put_record_part(
                &self.records,
                *record_handle,
                *data_transfer_handle,
                *transfer_operation_flag,
                *request_count,
                given,
            ),
        }
    }
}

/// Puts the refusal into `given` where a change was refused, and leaves `given` as it is where not.
fn put_outcome(given: &mut Answer, outcome: Result<(), Code>)
    ensures { given.new ≡ outcome_answered given.old outcome }
{
    if let Err(code) = outcome {
        *given = Answer::Refused(code);
    }
}

impl Platform for SimDevice {
    type State = SimDevice;

    const STEADY: bool = true;

    ghost STEADY = { true };

    ghost state = { λ device. device };

    ghost answer = { answer };

    ghost after = { after };

    ghost sensed = { sensed };

    ghost reads_only = { reads_only };

    ghost refusal_changes_nothing = { refusal_changes_nothing };

    ghost answers_the_command = { answers_the_command };

    // it keeps no account of them
    ghost performed = { λ before commands after. Unit {0} };

    ghost none_performed = { λ value. tt };

    ghost performed_in_turn = { λ first second third before after one other. tt };

    fn perform(&mut self, _alloc: Global, command: &Command) -> Result<Answer, Memory> {
        let mut given = Answer::SetTid;
        self.answer_into(command, &mut given);
        Ok(given)
    }

    fn perform_into(
        &mut self,
        _alloc: Global,
        command: &Command,
        given: &mut Answer,
    ) -> Result<(), Memory> {
        self.answer_into(command, given);
        Ok(())
    }

    fn set_reading(&mut self, id: u16, value: i64) -> Result<(), ReadingFault> {
        self.sense(id, value)
    }
}
