//! A law over the definitions alone. Nothing is computed: the function's contract is its law.

ghost use Rattle.mctpctl_decode.specs.Laws.{AllNamesAreRead, NamesAreRead};

/// The names that are shown of a record are those that its text spells, of one entity and of each sensor or effecter of
/// a composite one.
pub fn names_are_read()
    ensures names { NamesAreRead }
    ensures all { AllNamesAreRead }
{}
