//! Blocks that could be one are joined.

ghost use Rattle.std.specs.Prelude.{◌≡◌, ◌<◌, IfOk, length};
ghost use Rattle.bl_block.specs.Merged.{AreMergedFrom};
ghost use Rattle.bl_block.specs.inner.Merging.{EachMerges, Merges};

use crate::groups::{grouped, nodes_of};
use crate::ways::Ways;
use bl_cause::Accepted;
use bl_graph::{Graph, graphs_stay_within};
use bl_graph_nodes::{nodes_differ, statements_are_made_of_parts};
use bl_machine::{Activity, Machine, Slot};
use bl_tree::{List, NoMemory};
use std::alloc::Global;

/// The machine of an accepted program with all blocks joined that could be one. Fails only if memory runs out.
pub fn merge<'a>(
    alloc: Global,
    machine: &Machine<'a>,
    accepted: &Accepted,
) -> Result<Machine<'a>, NoMemory>
    requires { machine.now.program ≡ accepted.now.program }
    ensures program { IfOk result (λ merged. merged.program ≡ machine.now.program) }
    ensures merged { IfOk result (λ merged. AreMergedFrom machine.now.program.units machine.now.activities merged.activities) }
{
    machine.is_machine();
    accepted.is_accepted();
    let activities = all(alloc, machine.activities(), accepted.graphs())?;
    Ok(Machine::new(machine.program(), activities))
}

/// Each activity with its blocks joined, by its tick graph.
fn all(alloc: Global, activities: &[Activity], graphs: &[Graph]) -> Result<List<Activity>, NoMemory>
    requires { length activities.now ≡ length graphs.now }
    ensures { IfOk result (EachMerges activities.now graphs.now) }
{
    let mut made = List::new(alloc);
    for (at, activity) in activities.iter().enumerate() {
        made.push(merged(alloc, activity, &graphs[at])?)?;
    }
    Ok(made)
}

/// An activity with its blocks joined, by its tick graph.
fn merged(alloc: Global, activity: &Activity, graph: &Graph) -> Result<Activity, NoMemory>
    ensures { IfOk result (Merges activity.now graph.now) }
{
    nodes_differ();
    statements_are_made_of_parts();
    graphs_stay_within();
    let ways = Ways::of(alloc, graph)?;
    let nodes = nodes_of(alloc, &activity.blocks)?;
    let blocks = grouped(alloc, &ways, &nodes)?;
    let slots = copied(alloc, &activity.slots)?;
    Ok(Activity { blocks, slots })
}

/// A copy of the numbers.
fn copied(alloc: Global, slots: &[Slot]) -> Result<List<Slot>, NoMemory>
    ensures { IfOk result (λ copy. copy ≡ slots.now) }
{
    let mut copy = List::new(alloc);
    for slot in slots {
        copy.push(*slot)?;
    }
    Ok(copy)
}
