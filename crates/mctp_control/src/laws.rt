//! Laws over the definitions alone: each is the contract of a function that does nothing.

ghost use Rattle.mctp_control.specs.Laws.{AnswerReadBack, AnswersNoOther, CommandReadBack, AssignedApart, CopiesAnsweredAlike, CopiesChangeNothing, HeaderDropsSeen, NoIdDropsSeen, OneAnswer, OneAnswerMessage, OneCommand, OneRequest, OneResponse, OtherMessagesUnanswered, OtherTypesSeen, OtherVersionsUnanswered, PartsUnanswered, RequestOrResponse, ShortUnanswered};

use mctp_packet::laws::bytes_spell_one_packet;

/// Bytes are one request or one response at most, and never both.
pub fn messages_are_told_apart()
    ensures request { OneRequest }
    ensures response { OneResponse }
    ensures apart { RequestOrResponse }
{}

/// A command is read from what it is written with, and data are one command at most.
pub fn commands_are_read_back()
    ensures back { CommandReadBack }
    ensures one { OneCommand }
{}

/// An answer is read from what it is written with, and a code and data are one answer at most.
pub fn answers_are_read_back()
    ensures back { AnswerReadBack }
    ensures one { OneAnswer }
{}

/// A control message is answered the same, and leaves the same, whether the responder of PLDM dropped it before or not,
/// which has the same endpoint ID, or none: where the checks of the packet's header dropped it (`header`, `no_id`), and
/// where it was dropped as a message of another type (`other_type`). What is dropped for any other reason asks nothing
/// of the endpoint: the packet is too short (`short`) or of another version (`version`), it is one of a message of
/// several or of a response (`part`), or it has a message of PLDM (`message`).
pub fn drops_are_answered_as_received()
    ensures header { HeaderDropsSeen }
    ensures no_id { NoIdDropsSeen }
    ensures other_type { OtherTypesSeen }
    ensures short { ShortUnanswered }
    ensures version { OtherVersionsUnanswered }
    ensures part { PartsUnanswered }
    ensures message { OtherMessagesUnanswered }
{}

/// A copy of an assignment changes nothing, and its answer has the message of the answer to what it repeats. Between
/// two packets of one source and the same message that both assign an endpoint ID there is the keeping time, or as many
/// others that assign as are kept.
pub fn assignments_are_accepted_once()
    ensures unchanged { CopiesChangeNothing }
    ensures alike { CopiesAnsweredAlike }
    ensures apart { AssignedApart }
{}

/// No answer to another request is believed: a packet that answers a query answers none of another endpoint, to another
/// device, on another tag, with another instance ID or of another command number. It answers with one message. What
/// data a query had, its answer does not say: a query of the same command with other data needs another instance ID.
pub fn answers_are_of_one_query()
    ensures apart { AnswersNoOther }
    ensures one { OneAnswerMessage }
{
    bytes_spell_one_packet();
}
