//! Laws of closed walks, and of the graphs of a program, each the contract of a function that does nothing.

ghost use Rattle.bl_cause.specs.Laws.{ControlWalks, GraphsAreFound, OrdersAreFound, RanksLeaveNoWalk, RulesLeaveNoWalk, WalksTurn};

/// Where numbers rise along every edge nothing acts twice, and nothing waits for itself.
pub fn ranks_leave_no_walk()
    ensures { RanksLeaveNoWalk }
{}

/// It doesn't matter at which of its nodes a closed walk is told.
pub fn walks_turn()
    ensures { WalksTurn }
{}

/// A closed walk has a data edge, or all its edges are control edges.
pub fn rules_leave_no_walk()
    ensures { RulesLeaveNoWalk }
{}

/// What rule Twice speaks of, said by the edges of the whole graph.
pub fn control_walks_are_walks()
    ensures { ControlWalks }
{}

/// Where the tick graph and the order of an activity stand.
pub fn graphs_are_found()
    ensures graphs { GraphsAreFound }
    ensures orders { OrdersAreFound }
{}
