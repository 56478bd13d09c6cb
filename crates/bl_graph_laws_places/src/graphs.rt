//! The laws of tick graphs.

ghost use Rattle.bl_graph_laws_places.specs.Laws.{PlainBodiesMove, TickGraphsMove};

/// Where places are mapped, and can be brought back, a body has the tick graphs that it had, with their nodes at mapped places.
pub fn tick_graphs_move()
    ensures plain { PlainBodiesMove }
    ensures graphs { TickGraphsMove }
{}
