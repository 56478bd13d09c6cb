//! The walk of an accepted program over all rows.

ghost use Rattle.std.specs.Prelude.{◌<◌, ◌^◌, ℕ, length, IfOk};
ghost use Rattle.bl_ctree.specs.Instances.{instances_of};
ghost use Rattle.bl_ctree.specs.Means.{Means, shown_trace};
ghost use Rattle.bl_ctree.specs.Reaches.{Bounded, NeverStuck};
ghost use Rattle.bl_walk.specs.Walks.{Appended};

use bl_rules::AcceptedSource;
use bl_rules_laws::traces::{accepted_trees_have_few_instances, accepted_trees_have_one_trace};
use bl_tree::{List, NoMemory, Place, Row, Trace};
use std::alloc::Global;

/// Runs the program of a source over rows in one of its interleavings, and appends a list of places for each tick begun.
/// After want of memory `steps` may hold further lists.
pub fn walk(
    alloc: Global,
    accepted: &AcceptedSource,
    rows: &[Row],
    seed: u64,
    steps: &mut List<List<Place>>,
) -> Result<Trace, NoMemory>
    ensures means { IfOk result (λ trace. Means accepted.now.program.structs accepted.now.program.units accepted.now.program.entry rows.now
        (shown_trace trace)) }
    ensures walked { IfOk result (λ trace. Appended accepted.now.program.structs accepted.now.program.units accepted.now.program.entry seed
        rows.now trace steps.old steps.new) }
{
    accepted_trees_have_few_instances();
    accepted_trees_have_one_trace();
    accepted.is_accepted();
    walk_bounded(alloc, accepted, rows, seed, steps)
}

/// The walk, where no list of steps of a tick is longer than some number.
fn walk_bounded(
    alloc: Global,
    accepted: &AcceptedSource,
    rows: &[Row],
    seed: u64,
    steps: &mut List<List<Place>>,
) -> Result<Trace, NoMemory>
    ghost most: { ℕ }
    requires few { length (instances_of accepted.now.program.units accepted.now.program.entry) < 2 ^ 32 }
    requires bounded { Bounded most accepted.now.program.structs accepted.now.program.units accepted.now.program.entry }
    requires never_stuck { NeverStuck accepted.now.program.structs accepted.now.program.units accepted.now.program.entry }
    ensures means { IfOk result (λ trace. Means accepted.now.program.structs accepted.now.program.units accepted.now.program.entry rows.now
        (shown_trace trace)) }
    ensures walked { IfOk result (λ trace. Appended accepted.now.program.structs accepted.now.program.units accepted.now.program.entry seed
        rows.now trace steps.old steps.new) }
{
    bl_walk::walk(alloc, accepted.program(), rows, seed, steps)
}
