//! The activities of a machine.

ghost use Rattle.bl_cause.specs.Activities.{AreGraphs, AreOrders, EachTwo, IsGraphOf, IsOrderOf, activities};
ghost use Rattle.bl_machine.specs.Machines.{AreActivitiesOf, IsActivityOf, IsPlainActivityOf};
ghost use Rattle.bl_machine.specs.inner.Found.{IsFound};
ghost use Rattle.std.specs.Prelude.{◌<◌, IfOk, length};

use crate::layout::in_block;
use crate::machine::Activity;
use crate::order::{in_order, single};
use crate::slots::numbered;
use bl_cause::Order;
use bl_cause::laws::graphs_are_found;
use bl_graph::Graph;
use bl_graph_nodes::plain_statements;
use bl_tree::tree::{Unit, UnitKind};
use bl_tree::{List, NoMemory, Program};
use std::alloc::Global;

/// An activity with its tick graph and an order of that: each node is a block of its own.
fn activity(alloc: Global, unit: &Unit, graph: &Graph, order: &Order) -> Result<Activity, NoMemory>
    requires graph { IsGraphOf unit.now graph.now }
    requires order { IsOrderOf graph.now order.now }
    ensures agrees { IfOk result (IsActivityOf unit.now) }
    ensures plain { IfOk result (IsPlainActivityOf unit.now) }
{
    plain_statements();
    let mut counters = List::new(alloc);
    let width = in_block(&unit.body, 0, &mut counters)?;
    let slots = numbered(alloc, width, &counters)?;
    let nodes = in_order(alloc, graph, order)?;
    let blocks = single(alloc, &nodes)?;
    Ok(Activity { blocks, slots })
}

/// The activity whose tick graph and whose order stand at the position.
fn activity_at(
    alloc: Global,
    unit: &Unit,
    graphs: &[Graph],
    orders: &[Order],
    at: usize,
) -> Result<Activity, NoMemory>
    requires graphs { at < length graphs.now }
    requires orders { at < length orders.now }
    requires found { IsFound unit.now graphs.now orders.now at }
    ensures agrees { IfOk result (IsActivityOf unit.now) }
    ensures plain { IfOk result (IsPlainActivityOf unit.now) }
{
    activity(alloc, unit, &graphs[at], &orders[at])
}

/// The activities of a program, in the order of units, each with its tick graph and its order.
pub fn all(
    alloc: Global,
    program: &Program,
    graphs: &[Graph],
    orders: &[Order],
) -> Result<List<Activity>, NoMemory>
    requires graphs { AreGraphs program.now.units graphs.now }
    requires orders { AreOrders graphs.now orders.now }
    ensures agrees { IfOk result (AreActivitiesOf program.now.units) }
    ensures plain { IfOk result (EachTwo IsPlainActivityOf (activities program.now.units)) }
{
    graphs_are_found();
    let mut made = List::new(alloc);
    for (at, unit) in program.units.iter().enumerate() {
        if let UnitKind::Activity = unit.kind {
            let next = made.len();
            made.push(activity_at(alloc, unit, graphs, orders, next)?)?;
        }
    }
    Ok(made)
}
