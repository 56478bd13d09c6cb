//! Programs of source texts are small. Lemmas only. A tree has at most as many parts as its text has bytes: parameters,
//! statements, arms and branches (`specs/Parts.antt`). So 64 bits count the variables of each unit, and what stands at its
//! statements, also in peeled units, in which loops have first turns (`specs/Small.antt`).
#![tactic(auto)]

ghost use Rattle.bl_rules_laws_sizes.specs.Small.{PeeledAreSmall, SpelledAreSmall, TextsAreSmall};

use bl_parse_laws::kept::what_is_spelled_keeps;

/// A text of at most 2^40 bytes whose tokens pass spells a small tree. An accepted text is such a text.
pub fn programs_of_texts_are_small()
    ensures spelled { SpelledAreSmall }
    ensures accepted { TextsAreSmall }
{
    what_is_spelled_keeps();
}

/// Where a tree has few parts, each unit of its program has few variables and statements, and so has each peeled unit.
pub fn peeled_units_stay_small()
    ensures { PeeledAreSmall }
{}
