//! Laws over the definitions alone. Nothing is computed: each function's contract is its law.

ghost use Rattle.pldm_update.specs.Laws.{AnswerReadBack, CommandReadBack, DataFits, OneAnswer, OneCommand, ValuesFound, ValuesReadBack, ValuesWritten, WrittenAnswerReadBack, WrittenCommandReadBack};
ghost use Rattle.pldm_update.specs.DeviceLaws.{FlashIsInOrder, ImageIsTheOffered, OneAgentAtATime, PiecesAreOwn, VerifiedIsWhole};
ghost use Rattle.pldm_update.specs.AgentLaws.{ActivatesWhatWasApplied};
ghost use Rattle.pldm_update.specs.UpdateRuns.{ImageIsTheOfferedOne};
ghost use Rattle.pldm_update.specs.PackageLaws.{OnePackage, PackageReadBack, RecordsApply};

/// Of every layout: the values that stand in data are read from it, what is read from data stands in it, and what
/// values are written as has them in it. So what is written is read back, and no data has two lists of values.
pub fn layouts_are_read_back()
    ensures reads_back { ValuesReadBack }
    ensures found { ValuesFound }
    ensures written { ValuesWritten }
{}

/// A command whose fields stand in data is read from it, and no two commands of one number have the same data. What a
/// command is written with is read back as the command.
pub fn commands_are_read_back()
    ensures reads_back { CommandReadBack }
    ensures one { OneCommand }
    ensures written_reads_back { WrittenCommandReadBack }
{}

/// An answer whose fields stand in a completion code and data is read from them, and no two answers to commands of one
/// number have the same code and data. What an answer is written with is read back as the answer.
pub fn answers_are_read_back()
    ensures reads_back { AnswerReadBack }
    ensures one { OneAnswer }
    ensures written_reads_back { WrittenAnswerReadBack }
{}

/// The data of a command or an answer has at most `MAX_UPDATE_DATA` bytes.
pub fn data_fits()
    ensures { DataFits }
{}

/// After every list of calls, whatever came and in whatever order: bytes are stored behind those that are stored, from
/// offset 0 on without a gap, and no more than the image has; only a whole image is verified, once; only what has just
/// been verified, well, is applied; only what was applied is activated; and a new image begins with no byte of an old
/// one.
pub fn flash_is_in_order()
    ensures { FlashIsInOrder }
{}

/// The bytes that are stored are those of the answer to the device's own request, the last one that it opened, and that
/// asked for just so many bytes from just that offset on.
pub fn pieces_are_own()
    ensures { PiecesAreOwn }
{}

/// While an update is under way, commands of another endpoint than its agent, and each RequestUpdate, change nothing.
pub fn one_agent_at_a_time()
    ensures { OneAgentAtATime }
{}

/// Where each piece that was asked for since the transfer began was answered from one image, what is stored is the
/// beginning of that image, byte for byte. What was answered to other requests, or came late, plays no part.
pub fn image_is_the_offered()
    ensures { ImageIsTheOffered }
{
    flash_is_in_order();
    pieces_are_own();
}

/// Then what the flash is told to verify is the whole image, where the transfer began with its size.
pub fn verified_is_whole()
    ensures { VerifiedIsWhole }
{
    flash_is_in_order();
    image_is_the_offered();
}

/// Over both ends, whatever is lost, repeated, late or restarted between them: where each piece that the device takes as
/// the answer to its open request, since the transfer began, is one that the agent gave to that very request, what the
/// flash is told to verify is the agent's file, byte for byte, where the transfer began with its size.
///
/// That nothing is activated that was not verified and applied, well, is [`flash_is_in_order`]: it is of every list of
/// the device's calls, so also of those over both ends, whatever the agent gave and the device took.
pub fn image_is_the_offered_one()
    ensures { ImageIsTheOfferedOne }
{
    verified_is_whole();
}

/// After every list of calls: ActivateFirmware is asked only where the device has said of each component that it was
/// applied, and only so does the update end well.
pub fn activates_what_was_applied()
    ensures { ActivatesWhatWasApplied }
{}

/// The package that a file has is read from it, and no file has two.
pub fn packages_are_read_back()
    ensures reads_back { PackageReadBack }
    ensures one { OnePackage }
{}

/// A record of a package is for a device exactly where each of its descriptors is one of the device's.
pub fn records_apply()
    ensures { RecordsApply }
{}
