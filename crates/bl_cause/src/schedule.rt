//! In which order the statements of a program's activities may act.

use crate::order::Order;
use bl_graph::Graph;
use bl_tree::List;

/// The tick graphs of a program's activities in the order of units, and an order for each.
#[derive(Drop)]
pub struct Schedule {
    pub graphs: List<Graph>,
    pub orders: List<Order>,
}
