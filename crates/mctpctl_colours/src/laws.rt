//! Laws over the definitions.

ghost use Rattle.mctpctl_colours.specs.Laws.{ColoursAddNothing};

/// Without its codes a line in a colour is the line.
pub fn colours_add_nothing()
    ensures { ColoursAddNothing }
{}
