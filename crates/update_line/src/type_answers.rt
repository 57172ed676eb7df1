//! What a device that takes updates says of PLDM type 5, beside what its platform says.

ghost use Rattle.std.specs.Prelude.{◌≡◌};
ghost use Rattle.update_line.specs.TypeAnswers.{update_commands, with_updates};

use pldm_update::FIRMWARE_UPDATE;
use pldm_wire::{Answer, COMMANDS_BYTES, Command, GET_FIRST_PART, VersionData};

/// DSP0267 1.1.0 as version data: the version, and the CRC-32 of it (DSP0240, "GetPLDMVersion command").
const VERSION: [u8; 8] = [0x00, 0xf0, 0xf1, 0xf1, 0xba, 0xbe, 0x9d, 0x53];

/// The types 0, 2 and 5 (DSP0240, "GetPLDMTypes command").
const TYPES: [u8; 8] = [0x25, 0, 0, 0, 0, 0, 0, 0];

/// The answer to a command, where the platform's own is this one.
pub(crate) fn with_updates(command: &Command, answer: Answer) -> Answer
    ensures { result ≡ with_updates command.now answer }
{
    match command {
        Command::GetPldmTypes => Answer::GetPldmTypes { types: TYPES },
        Command::GetPldmVersion {
            transfer_operation_flag,
            pldm_type,
            ..
        } if *pldm_type == FIRMWARE_UPDATE && *transfer_operation_flag == GET_FIRST_PART => {
            Answer::GetPldmVersion {
                next_data_transfer_handle: 0,
                versions: VersionData::new(&VERSION).unwrap(),
            }
        }
        Command::GetPldmCommands { pldm_type, .. } if *pldm_type == FIRMWARE_UPDATE => {
            Answer::GetPldmCommands {
                commands: commands(),
            }
        }
        _ => answer,
    }
}

/// The commands of an update agent that a device answers, a bit each (DSP0240, "GetPLDMCommands command").
#[tactic(auto, unfolding(crate::specs::TypeAnswers::update_commands))]
fn commands() -> [u8; COMMANDS_BYTES]
    ensures { result ≡ update_commands }
{
    let mut commands = [0; COMMANDS_BYTES];
    commands[0] = 0x06; // QueryDeviceIdentifiers, GetFirmwareParameters
    commands[2] = 0x19; // RequestUpdate, PassComponentTable, UpdateComponent
    commands[3] = 0x3c; // ActivateFirmware, GetStatus, CancelUpdateComponent, CancelUpdate
    commands
}
