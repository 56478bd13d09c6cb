//! Laws of the meaning. Each is proved as the contract of a function that does nothing.

ghost use Rattle.std.specs.Prelude.{IfSome, IsTrue, slice_get};
ghost use Rattle.bl_eval.specs.Standing.{ActStandsInUnit, ExprStandsInUnit, outcome_in_unit, type_in_unit, value_in_unit, view_of};
ghost use Rattle.bl_eval.specs.Values.{value_fits, values_fit};

use crate::values::Values;
use bl_tree::Program;
use bl_tree::tree::{Expr, Stmt};

/// The value of an expression of a unit is one of its type, where those of the variables are.
pub fn value_has_its_type(program: &Program, now: &Values, before: &Values, e: &Expr)
    requires stands { ExprStandsInUnit program.now.structs program.now.units now.now.unit (view_of now.now before.now) e.now }
    ensures { IfSome (value_in_unit program.now.structs program.now.units now.now.unit e.now (view_of now.now before.now))
        (λ value. IfSome (type_in_unit program.now.structs program.now.units now.now.unit e.now) (λ ty. IsTrue (value_fits program.now.structs ty value))) }
{}

/// The variables of a unit have values of their types after an act of it, where they had before.
pub fn act_keeps_types(program: &Program, now: &Values, before: &Values, s: &Stmt)
    requires stands { ActStandsInUnit program.now.structs program.now.units now.now.unit (view_of now.now before.now) s.now }
    ensures { IfSome (outcome_in_unit program.now.structs program.now.units now.now.unit s.now (view_of now.now before.now))
        (λ left. IfSome (slice_get program.now.units now.now.unit) (λ unit. IsTrue (values_fit program.now.structs unit.vars left))) }
{}
