//! The law of programs of accepted trees that a body asks what a variable was only behind its declaration (`FromText` of `bl_machine_prevs`),
//! as the contract of a function that does nothing.

ghost use Rattle.std.specs.Prelude.{List};
ghost use Rattle.bl_tree.specs.declared.program.Program.{Program};
ghost use Rattle.bl_tree.specs.declared.tree.Unit.{Unit as UnitDef};
ghost use Rattle.bl_cause_trees.specs.Peeled.{ArePeeled};
ghost use Rattle.bl_machine_prevs.specs.Declared.{FromText};
ghost use Rattle.bl_rules.specs.Accepted.{IsOfTree};

use bl_cause_trees::laws::units_are_peeled;
use bl_machine_prevs_laws::declared::typed_texts_declare;
use bl_peel_laws::prevs::prevs_of_peeled_units_are_declared;

/// Where no rule fails for a tree, the units of its program keep what programs of texts keep, and so do the peeled units of these.
pub fn accepted_trees_declare()
    ensures units { (program : Program) → IsOfTree program → FromText program.units }
    ensures peeled { (program : Program) (peeled : List UnitDef) → IsOfTree program → ArePeeled program.units peeled → FromText peeled }
{
    units_are_peeled();
    typed_texts_declare();
    prevs_of_peeled_units_are_declared();
}
