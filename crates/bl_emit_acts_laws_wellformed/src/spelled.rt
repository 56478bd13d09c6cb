//! The C of expressions and paths has a spelling. It names only what may be named, and has literals in the range of
//! their types and lengths that arrays may have. At most two more brackets are open in it than twice the nesting of
//! operators, casts, calls and indices in the expression (`specs/Spelled.antt`, `ExpressionsFit`). The same holds for
//! the place of a path (`PlacesFit`).

ghost use Rattle.bl_tree.specs.declared.program.Program.{Program};
ghost use Rattle.bl_emit_acts_laws_wellformed.specs.Spelled.{ExpressionsFit, PlacesFit};

/// What is made of an expression of a typed program has a spelling, which is no deeper than the expression allows.
pub fn expressions_fit()
    ensures { (program : Program) → ExpressionsFit program.structs program.units program.entry }
{}

/// The place of a path of a typed program has a spelling, which is no deeper than the path allows.
pub fn places_fit()
    ensures { (program : Program) → PlacesFit program.structs program.units program.entry }
{}
