//! Laws of files that differ in the places of their parts alone.

ghost use Rattle.std.specs.Prelude.{◌≡◌, ◌↔◌};
ghost use Rattle.bl_ctext.specs.declared.file.CFile.{CFile};
ghost use Rattle.bl_ctext_semantics.specs.Faults.{WellFormed};
ghost use Rattle.bl_ctext_semantics.specs.Parts.{parts_of};
ghost use Rattle.bl_cparse_syntax_laws.specs.Placeless.{SameButPlaces};
ghost use Rattle.bl_ctext_semantics_laws_places.specs.Behaviour.{behaviour_of, clauses_failing};

/// In two files that differ in places alone the same clauses fail, so that one is well formed where the other is, and both
/// behave alike.
pub fn places_do_not_count()
    ensures clauses { (file other : CFile) → SameButPlaces file other → clauses_failing (parts_of file) ≡ clauses_failing (parts_of other) }
    ensures well_formed { (file other : CFile) → SameButPlaces file other → WellFormed (parts_of file) ↔ WellFormed (parts_of other) }
    ensures behaviour { (file other : CFile) → SameButPlaces file other → behaviour_of (parts_of file) ≡ behaviour_of (parts_of other) }
{}
