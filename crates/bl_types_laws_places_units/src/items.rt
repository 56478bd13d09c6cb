//! The laws of items.

ghost use Rattle.bl_types_laws_places_units.specs.Laws.{ItemsAgree, ItemsAreKnown, ItemsFollow};

use bl_types_laws_places::judged::{arguments_agree, declarations_agree, expressions_agree};

/// Typing items one after another is typing the first, and then the others with what is known after the first.
pub fn items_follow()
    ensures { ItemsFollow }
{}

/// Items whose positions are in place declare as much as is counted.
pub fn items_are_known()
    ensures { ItemsAreKnown }
{}

/// Items are judged alike in two programs, if what is known before them agrees.
pub fn items_agree()
    ensures { ItemsAgree }
{
    expressions_agree();
    arguments_agree();
    declarations_agree();
}
