//! How the counters of an instance follow the turns of a pass by registers. Lemmas only, each stated in
//! `specs/Turns/Laws.antt`. The rules of a body are those of its nodes, and trees stay placed in their body, with its
//! rules and counters (`StaysPlaced`). A turn's rule keeps the counters what they may be for the tree
//! (`specs/Turns/Holds.antt`), and the flag that tells whether the body has ended (`TurnsChangeNumbers`). The numbers of
//! the tree are what they may be, and in a settled tree nothing else (`CountersLinger`). Between ticks the first counter
//! holds 0 only where the instance isn't running (`FirstCounterTells`).

ghost use Rattle.bl_machine_pass_laws.specs.Turns.Holds.{CountersLinger};
ghost use Rattle.bl_machine_pass_laws.specs.Turns.Laws.{FirstCounterTells, StaysPlaced, TurnsChangeNumbers};

use bl_graph_nodes::nodes_differ;

/// The rules of a body are those of its nodes, in their order; a body begins placed, and waking and turns leave trees placed.
pub fn trees_stay_placed()
    ensures { StaysPlaced }
{}

/// Counters tell the numbers of the tree after each turn.
pub fn turns_change_numbers()
    ensures { TurnsChangeNumbers }
{
    trees_stay_placed();
    nodes_differ();
}

/// What counters may hold tells the numbers of the tree, but for places that were left.
pub fn counters_linger()
    ensures { CountersLinger }
{}

/// Between ticks the first counter of an instance that is running doesn't hold 0.
pub fn first_counter_tells()
    ensures { FirstCounterTells }
{
    trees_stay_placed();
}
