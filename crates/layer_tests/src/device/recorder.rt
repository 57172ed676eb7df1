//! A platform of another kind than the simulated device, which may want memory.

ghost use Rattle.std.specs.Prelude.{◌≡◌, false, OnOk};
ghost use Rattle.layer_tests.specs.Recorders.{recorder_after, recorder_answer, recorder_answers, recorder_reads_only, recorder_refusal, recorder_sensed};

use mctp_packet::Memory;
use pldm_platform::{Platform, ReadingFault};
use pldm_wire::{Answer, Code, Command};
use std::alloc::Global;

/// Each terminus ID that it was given.
#[derive(Drop)]
pub struct Recorder {
    tids: Vec<u8>,
}

impl Recorder {
    /// One that was given none.
    pub fn new(alloc: Global) -> Recorder {
        Recorder {
            tids: Vec::new(alloc),
        }
    }

    /// The terminus IDs in order.
    pub fn tids(&self) -> &[u8] {
        self.tids.as_slice()
    }
}

impl Platform for Recorder {
    type State = [u8; 0];

    const STEADY: bool = false;

    ghost STEADY = { false };

    ghost state = { λ recorder. recorder.tids.items };

    ghost answer = { recorder_answer };

    ghost after = { recorder_after };

    ghost sensed = { recorder_sensed };

    // it keeps the terminus IDs alone
    ghost performed = { λ before commands after. Unit {0} };

    ghost reads_only = { recorder_reads_only };

    ghost refusal_changes_nothing = { recorder_refusal };

    ghost answers_the_command = { recorder_answers };

    ghost none_performed = { λ value. tt };

    ghost performed_in_turn = { λ first second third before after one other. tt };

    fn perform(&mut self, _alloc: Global, command: &Command) -> Result<Answer, Memory> {
        match command {
            Command::SetTid { tid } => {
                self.tids.push(*tid)?;
                Ok(Answer::SetTid)
            }
            Command::GetTid => {
                let tid = match self.tids.last() {
                    Some(tid) => *tid,
                    None => 0,
                };
                Ok(Answer::GetTid { tid })
            }
            _ => Ok(Answer::Refused(Code::ERROR_UNSUPPORTED_PLDM_CMD)),
        }
    }

    fn set_reading(&mut self, _id: u16, _value: i64) -> Result<(), ReadingFault> {
        Err(ReadingFault::NoSuchSensor)
    }
}

/// The terminus ID that a platform reports; asking changes nothing, by its laws.
pub fn reported_tid<P: Platform>(alloc: Global, platform: &mut P) -> Result<Option<u8>, Memory>
    ensures { OnOk result (P.state platform.new ≡ P.state platform.old) }
{
    match platform.perform(alloc, &Command::GetTid) {
        Ok(Answer::GetTid { tid }) => Ok(Some(tid)),
        Ok(_) => Ok(None),
        Err(memory) => Err(memory),
    }
}
