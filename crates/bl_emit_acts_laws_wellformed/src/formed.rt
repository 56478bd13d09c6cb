//! The C of expressions, paths and acts is well formed. If all names of a unit are declared in C
//! (`specs/Formed/Declared.antt`, `Declared`), the C expression has the corresponding C type, and no clause of a
//! well-formed file fails in it (`specs/Formed/Laws.antt`, `ExpressionsTyped`). The same holds for the place of a path
//! (`PlacesTyped`). No clause fails in the C of an assignment, a declaration or a call (`ActsWellFormed`). A premise is
//! that a unit that may change nothing through a pointer has no variable behind one (`ChangesNone`).

ghost use Rattle.bl_tree.specs.declared.program.Program.{Program};
ghost use Rattle.bl_emit_acts_laws_wellformed.specs.Formed.Laws.{ActsWellFormed, ExpressionsTyped, PlacesTyped};

/// What is made of an expression of a typed program has the C type of its type, and nothing fails in it.
pub fn expressions_typed()
    ensures { (program : Program) → ExpressionsTyped program.structs program.units program.entry }
{}

/// The place of a path of a typed program has the C type of the path's type, and nothing fails in it.
pub fn places_typed()
    ensures { (program : Program) → PlacesTyped program.structs program.units program.entry }
{}

/// Nothing fails in the C of an assignment, a declaration or a call of a typed program.
pub fn acts_well_formed()
    ensures { (program : Program) → ActsWellFormed program.structs program.units program.entry }
{}
