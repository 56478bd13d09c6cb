//! Laws of the positions of constants.

ghost use Rattle.bl_names_laws_files.specs.Laws.{GlobalsAreCounted, GlobalsInTurn, GlobalsMove, GlobalsPlaced, RenumberInTurn};

/// Constants of items one after another have the positions that they have in each part.
pub fn globals_in_turn()
    ensures positions { GlobalsInTurn }
    ensures renumbered { RenumberInTurn }
    ensures moved { GlobalsMove }
    ensures placed { GlobalsPlaced }
    ensures counted { GlobalsAreCounted }
{}
