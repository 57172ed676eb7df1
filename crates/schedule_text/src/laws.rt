//! A law of a schedule's lines, over the definitions alone: the function does nothing and ensures its law.

ghost use Rattle.schedule_text.specs.Laws.{ReadAsSpelled};

/// A line of a schedule is read as something exactly where its words spell that.
pub fn lines_are_read_as_spelled()
    ensures { ReadAsSpelled }
{}
