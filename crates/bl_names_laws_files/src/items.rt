//! Laws of items one after another.

ghost use Rattle.bl_names_laws_files.specs.Laws.{GivenInTurn, ItemsAreCounted};

/// Items one after another give what each part gives, and what they give is counted.
pub fn items_in_turn()
    ensures given { GivenInTurn }
    ensures counted { ItemsAreCounted }
{}
