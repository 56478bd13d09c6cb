//! Laws of typed trees whose places are mapped.

ghost use Rattle.std.specs.Prelude.{◌≡◌};
ghost use Rattle.bl_tree.specs.declared.place.Place.{Place};
ghost use Rattle.bl_tree.specs.declared.tree.Unit.{Unit as UnitDef};
ghost use Rattle.bl_tree_laws_places.specs.Laws.{BringsBack, EffectsStay};
ghost use Rattle.bl_tree_laws_places.specs.Placed.{placed_unit};

/// What statements read and write doesn't depend on where they stand in the source, nor does whether they may end in their first tick.
pub fn effects_stay()
    ensures { (f : Place → Place) → EffectsStay f }
{}

/// A unit whose places were mapped is the unit again where a second map brings each place back.
pub fn units_come_back()
    ensures { (f g : Place → Place) → BringsBack g f → (unit : UnitDef) → placed_unit g (placed_unit f unit) ≡ unit }
{}
