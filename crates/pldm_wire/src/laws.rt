//! Laws over the definitions alone. Nothing is computed: each function's contract is its law.

ghost use Rattle.pldm_wire.specs.Laws.{AnswerReadBack, AnswerWritten, CommandReadBack, CommandWritten, CrcIsRemainder, OneAnswer, OneCommand, OneRemainder, OneRequest, OneResponse, OnlyCrc, RequestOrResponse, RequestReadBack, ResponseReadBack, ValuesFound, ValuesReadBack, ValuesWritten, WrittenAnswerReadBack, WrittenCommandReadBack};
ghost use Rattle.pldm_wire.specs.MessageSizes.{CommandFitsOnePacket, CommandIsShort, AnswerFitsMessage};

/// Bytes are one request at most, one response at most, and not both; and each is read as itself.
pub fn messages_are_told_apart()
    ensures one_request { OneRequest }
    ensures one_response { OneResponse }
    ensures not_both { RequestOrResponse }
    ensures reads_back { RequestReadBack }
    ensures response_reads_back { ResponseReadBack }
{}

/// Of every layout: the values that stand in data are read from it, what is read from data stands in it, and what
/// values are written as has them in it. So what is written is read back, and no data has two lists of values.
pub fn layouts_are_read_back()
    ensures reads_back { ValuesReadBack }
    ensures found { ValuesFound }
    ensures written { ValuesWritten }
{}

/// A command whose fields stand in the data is read from it, and no two commands of one kind have
/// the same data. What a command is written with has its fields, and is read back as the same
/// instance ID and command.
pub fn commands_are_read_back()
    ensures reads_back { CommandReadBack }
    ensures one { OneCommand }
    ensures written { CommandWritten }
    ensures written_reads_back { WrittenCommandReadBack }
{}

/// No two answers of one kind have the same completion code and data.
pub fn answers_are_told_apart()
    ensures one { OneAnswer }
{}

/// An answer whose fields stand in a response to its command is read from it. What an answer is
/// written with has its fields, and is read back as the same instance ID and answer.
pub fn answers_are_read_back()
    ensures reads_back { AnswerReadBack }
    ensures written { AnswerWritten }
    ensures written_reads_back { WrittenAnswerReadBack }
{}

/// No number has two remainders by the divisor of checksums. What long division leaves of bytes is the remainder of
/// their bits and eight zeros, and that is their only remainder.
pub fn checksums_are_remainders()
    ensures one { OneRemainder }
    ensures remainder { CrcIsRemainder }
    ensures only { OnlyCrc }
{}

/// The message of a command has at most the bytes of one packet, and at most `MAX_REQUEST_BYTES`; that
/// of an answer has at most the bytes of a message; both have some.
pub fn messages_fit()
    ensures command { CommandFitsOnePacket }
    ensures short { CommandIsShort }
    ensures answer { AnswerFitsMessage }
{}
