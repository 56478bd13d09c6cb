//! The premises of the laws of passes hold for a compiled program. Lemmas only (`specs/Compiled.antt`). They hold for a
//! typed program of a source text that passes the rules, with a machine of it (`ProgramsCompile`). 64
//! bits must count the variables and statements of its units. All that the rules of an instance ask for and change are
//! registers of its function, where rule Cells holds (`RulesAreOwn`).

ghost use Rattle.bl_tree.specs.declared.program.Program.{Program};
ghost use Rattle.bl_emit_spec_laws_simulation.specs.Compiled.{ProgramsCompile, RulesAreOwn};

use bl_ctree_laws_confluence::deeds::accepted_programs_are_orderly;
use bl_emit_functions_laws_wellformed::numbered::units_counted;
use bl_emit_spec_laws::own::{asked_are_own, changes_are_own, nodes_are_few, registers_are_few};
use bl_emit_spec_laws_wellformed::closed::instances_needed;
use bl_emit_spec_laws_wellformed::counts::nodes_counted;
use bl_emit_spec_laws_wellformed::needed::needed_small;
use bl_limits_measures::laws::units_add_up;
use bl_limits_measures_laws::laws::units_use_earlier_ones;

/// A program of a source text that passes the rules, with a machine of it, is compiled as the laws of passes ask.
pub fn programs_compile()
    ensures { (program : Program) → ProgramsCompile program.structs program.units program.entry }
{
    units_counted();
    nodes_counted();
    nodes_are_few();
    registers_are_few();
}

/// The rules of an instance's nodes ask and change registers of its function.
pub fn rules_are_own()
    ensures { (program : Program) → RulesAreOwn program.structs program.units program.entry }
{
    accepted_programs_are_orderly();
    changes_are_own();
    asked_are_own();
    instances_needed();
    needed_small();
    nodes_counted();
    units_use_earlier_ones();
    units_add_up();
}
