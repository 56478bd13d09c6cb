//! How many counters, flags and marks the C of an activity has. One lemma (`specs/Costs.antt`): its counters with their
//! copies, flags, marks and `run`s together are at most four for each of its statements (`BodiesCost`).

ghost use Rattle.bl_tree.specs.declared.program.Program.{Program};
ghost use Rattle.bl_emit_spec_laws_wellformed.specs.Costs.{BodiesCost};

/// What a body takes is no more than four for each of its statements.
pub fn bodies_cost()
    ensures { (program : Program) → BodiesCost program.structs program.units program.entry }
{}
