//! Laws of the headings of items.

ghost use Rattle.bl_names_laws_files.specs.Laws.{BlanksAreCounted, DeclaredInTurn, DeclaredPlaced, HeadingsOpen, ItemsArePlaced};

/// Headings that declare the names of items open a scope that corresponds to that behind the items.
pub fn headings_open()
    ensures open { HeadingsOpen }
    ensures in_turn { DeclaredInTurn }
    ensures placed { DeclaredPlaced }
    ensures blanks { BlanksAreCounted }
{}

/// Positions in items behind headings are those of what is declared before.
pub fn items_are_placed()
    ensures { ItemsArePlaced }
{}
