//! Laws over the definitions alone: each is the contract of a function that does nothing.

ghost use Rattle.pldm_records.specs.FetchLaws.{DoneIsTheRecord, PartsGiveTheRecord, RepositoryIsFetched};
ghost use Rattle.pldm_records.specs.FetchHistories.{TakingLooksBack, BegunLooksBack, AskingLooksBack};
ghost use Rattle.pldm_records.specs.Laws.{PartsEnd, PartsJoin, PartsStatePlaces};

/// A record that is transferred part by part, for whatever numbers of bytes, comes to an end. Its
/// parts join to the record, and their flags and checksums state their places.
pub fn parts_join_to_the_record()
    ensures joined { PartsJoin }
    ensures places { PartsStatePlaces }
    ensures end { PartsEnd }
{}

/// Where a fetch is done, whatever answers it was given, the parts joined are a whole record, the
/// one that was asked for, and where a checksum came, it is the record's. Where it is given the
/// parts of a record in turn, it goes on at each, asking for the next one with the record's change
/// number, and is done at the last with the record. Followed over a repository, it ends with the
/// record that was asked for.
pub fn a_fetch_gives_the_record()
    ensures done { DoneIsTheRecord }
    ensures parts { PartsGiveTheRecord }
    ensures repository { RepositoryIsFetched }
{}

/// What a fetch holds after any list of answers, what the next one gives, what is asked for next and
/// the record are read by looking back over the list.
pub fn a_fetch_looks_back()
    ensures taking { TakingLooksBack }
    ensures begun { BegunLooksBack }
    ensures asking { AskingLooksBack }
{}
