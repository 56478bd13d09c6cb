//! Laws of the resting places in the rules of an activity. In the rules of a typed program's activity each number of a
//! resting place has a value of its counter's type, and those that the body of a `when` may rest at are of one
//! counter (`specs/Rests.antt`, `RulesStand`).

ghost use Rattle.bl_tree.specs.declared.program.Program.{Program};
ghost use Rattle.bl_emit_spec_laws_wellformed.specs.Rests.{RulesStand};

use bl_machine_pass_laws::slots::{numbers_are_laid, typed_have_branches};

/// The numbers in the rules of a typed program's activities fit their counters' types.
pub fn rules_stand()
    ensures { (program : Program) → RulesStand program.structs program.units program.entry }
{
    numbers_are_laid();
    typed_have_branches();
}
