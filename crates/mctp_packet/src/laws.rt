//! Laws over the definitions alone: each is the contract of a function that does nothing.

ghost use Rattle.mctp_packet.specs.Laws.{WrittenSpells, OnePacket, OnlyReservedDiffer, SpelledIsRead, SpelledIsReadFor, ReadIsSpelled, ReadForIsSpelled, EachIsPacket, EachButTheLastIsFull, PacketsJoin, OneMessage, SplitsToWritten, SplitsReadBack};

/// The bytes that are written of a packet spell that packet and no other; in bytes that spell it, only reserved bits
/// may differ.
pub fn bytes_spell_one_packet()
    ensures written { WrittenSpells }
    ensures one { OnePacket }
    ensures reserved { OnlyReservedDiffer }
{}

/// Reading bytes gives the packet that they spell, so a packet that was written is read back.
pub fn reading_is_spelling()
    ensures read { SpelledIsRead }
    ensures read_for { SpelledIsReadFor }
    ensures spelled { ReadIsSpelled }
    ensures spelled_for { ReadForIsSpelled }
{}

/// A message's packets are packets, each full but the last, and they join to the message alone.
pub fn packets_join_to_the_message()
    ensures packets { EachIsPacket }
    ensures full { EachButTheLastIsFull }
    ensures join { PacketsJoin }
    ensures one { OneMessage }
{}

/// What `split` gives are the message's packets, written, and each reads back as that packet.
pub fn split_packets_read_back()
    ensures written { SplitsToWritten }
    ensures back { SplitsReadBack }
{
    reading_is_spelling();
}
