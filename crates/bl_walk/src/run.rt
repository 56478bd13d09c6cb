//! The walk over all rows.

ghost use Rattle.std.specs.Prelude.{◌≡◌, ◌<◌, ◌^◌, ℕ, length, slice_get, IfOk};
ghost use Rattle.bl_ctree.specs.Instances.{instances_of};
ghost use Rattle.bl_ctree.specs.Means.{Means, shown_trace};
ghost use Rattle.bl_ctree.specs.Reaches.{Bounded, NeverStuck};
ghost use Rattle.bl_ctree_run.specs.Outputs.{outputs_of_unit};
ghost use Rattle.bl_walk.specs.Walks.{Appended};

use crate::choice::Choice;
use crate::laws::walks_are_allowed;
use crate::tick::tick;
use bl_ctree_run::Tree;
use bl_tree::{Last, List, NoMemory, Place, Program, Row, Trace};
use std::alloc::Global;

/// Runs a program over rows in one of its interleavings, and appends a list of places for each tick begun. Asks that no list
/// of steps of a tick is longer than some number, and that none is stuck, as of each program that no rule refuses. After want
/// of memory `steps` may hold further lists.
pub fn walk(
    alloc: Global,
    program: &Program,
    rows: &[Row],
    seed: u64,
    steps: &mut List<List<Place>>,
) -> Result<Trace, NoMemory>
    ghost most: { ℕ }
    requires few { length (instances_of program.now.units program.now.entry) < 2 ^ 32 }
    requires bounded { Bounded most program.now.structs program.now.units program.now.entry }
    requires never_stuck { NeverStuck program.now.structs program.now.units program.now.entry }
    ensures means { IfOk result (λ trace. Means program.now.structs program.now.units program.now.entry rows.now (shown_trace trace)) }
    ensures walked { IfOk result (λ trace. Appended program.now.structs program.now.units program.now.entry seed rows.now trace
        steps.old steps.new) }
{
    walks_are_allowed();
    let width = width_of(program);
    let mut tree = Tree::start(alloc, program)?;
    let mut choice = Choice::by_seed(seed);
    let mut outs = List::new(alloc);
    'rows: for row in rows {
        let last = tick(alloc, &mut tree, &mut choice, width, row, &mut outs, steps)?;
        match last {
            Last::Open => {}
            _ => return Ok(Trace { rows: outs, last }),
        }
    }
    Ok(Trace {
        rows: outs,
        last: Last::Open,
    })
}

// How many outputs the entry has.
fn width_of(program: &Program) -> u32
    ensures { result ≡ outputs_of_unit (slice_get program.now.units program.now.entry) }
{
    match program.units.as_slice().get(program.entry as usize) {
        Some(unit) => unit.outputs,
        None => 0,
    }
}
