//! Laws of assembly, over the definitions alone: each function does nothing and ensures its law.

ghost use Rattle.mctp_assembly.specs.Laws.{FeedLooksBack, ForgetLooksBack, NewLooksBack, HeldWhereBegun, OneRow, CopiesGiveNoOther};

/// What an assembler holds after any list of calls, and what it gives then, is read by looking
/// back over the list.
pub fn looks_back()
    ensures feed { FeedLooksBack }
    ensures forget { ForgetLooksBack }
    ensures new { NewLooksBack }
    ensures held { HeldWhereBegun }
    ensures one { OneRow }
{}

/// Where only copies of the packets of one message came since their key was last forgotten, no other message is
/// returned.
pub fn copies_give_no_other()
    ensures { CopiesGiveNoOther }
{}
