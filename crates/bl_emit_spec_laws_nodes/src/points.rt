//! The C of all nodes but those of a `run`. Lemmas only (`specs/Points/Laws.antt`). In the middle of a pass,
//! memory represents the changed registers after the C of changes, and all else as before (`ChangesSimulateInPass`). An
//! `if` by the guard of a block's first node is taken iff the rule of that node is due, or the block before was taken and
//! leaves its call (`GuardsSimulate`). The C of nodes with changes alone simulates them
//! (`SilentNodesSimulate`). Rules must use only registers of their activity (`RulesOwn`). Only a `return` may end a body
//! with a result (`ReturnsEnd`), and an activity must remember what its callees remember (`Remembering`).

ghost use Rattle.bl_tree.specs.declared.program.Program.{Program};
ghost use Rattle.bl_emit_spec_laws_nodes.specs.Points.Acts.{ActNodesSimulate, ReturnNodesSimulate};
ghost use Rattle.bl_emit_spec_laws_nodes.specs.Points.Laws.{ChangesSimulateInPass, GuardsSimulate, SilentNodesSimulate};
ghost use Rattle.bl_emit_spec_laws_nodes.specs.Points.Nodes.{TestNodesSimulate};
ghost use Rattle.bl_emit_spec_laws_nodes.specs.Points.Points.{BodiesEnd, PointsSimulate};

use bl_emit_acts_laws_simulation::{acts_simulate, expressions_simulate, frames_apart};
use bl_emit_spec_laws::registers::{changes_simulate, guards_show, registers_apart};

/// In the middle of a pass the C of changes changes the registers alone.
pub fn changes_stand()
    ensures { ChangesSimulateInPass }
{
    changes_simulate();
    registers_apart();
}

/// An `if` by the guard of a block's first node does what stands in it iff the rule of that node is due or the block
/// before has left its call.
pub fn guards_choose()
    ensures { GuardsSimulate }
{
    guards_show();
}

/// The blocks of nodes at which nothing is done but changes do what a pass by rules does there.
pub fn silent_nodes_simulate()
    ensures { SilentNodesSimulate }
{
    changes_stand();
}

/// The blocks of nodes at which a condition is tested do what a pass by rules does there.
pub fn test_nodes_simulate()
    ensures { (program : Program) → TestNodesSimulate program.structs program.units program.entry }
{
    changes_stand();
    frames_apart();
    expressions_simulate();
}

/// The blocks of nodes at which an act is done do what a pass by rules does there.
pub fn act_nodes_simulate()
    ensures { (program : Program) → ActNodesSimulate program.structs program.units program.entry }
{
    changes_stand();
    frames_apart();
    registers_apart();
    acts_simulate();
}

/// Nothing but a `return` ends the body of an activity with a result.
pub fn returns_end()
    ensures { (program : Program) → BodiesEnd program.structs program.units program.entry }
{}

/// The blocks of nodes at which a `return` is done do what a pass by rules does there.
pub fn return_nodes_simulate()
    ensures { (program : Program) → ReturnNodesSimulate program.structs program.units program.entry }
{
    changes_stand();
    frames_apart();
    expressions_simulate();
}

/// The blocks of all nodes but those of a `run` do what a pass by rules does there.
pub fn points_simulate()
    ensures { (program : Program) → PointsSimulate program.structs program.units program.entry }
{
    silent_nodes_simulate();
    guards_choose();
    test_nodes_simulate();
    act_nodes_simulate();
    return_nodes_simulate();
    returns_end();
}
