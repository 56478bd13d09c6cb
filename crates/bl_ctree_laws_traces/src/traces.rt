//! Accepted programs have exactly one trace. There is no code here. Laws, as contracts of functions that do nothing: where
//! ticks are bounded each list of steps goes on to a maximal one, so that the meaning allows something over all rows; and
//! where no tick is stuck all that it allows are traces (`specs/Traces/Maximal.antt`). So a typed program that passes the rules on
//! effects has exactly one trace over all rows, no tick with more steps than its number of them, and no stuck tick, where
//! the tick graphs of its activities have orders (`specs/Traces/OneTrace.antt`).

ghost use Rattle.bl_ctree_laws_traces.specs.Traces.Maximal.{BoundedExtend, BoundedHaveMeanings, BoundedHaveTicks, UnstuckShowTraces};
ghost use Rattle.bl_ctree_laws_traces.specs.Traces.OneTrace.{OrderedAreNumbered, OrderedHaveOneTrace};

use crate::bounded::accepted_is_bounded;
use crate::ready::{ordered_programs_are_never_stuck, orders_give_ranks};
use bl_ctree::laws::{lists_of_steps, points_are_steps};
use bl_ctree_laws_confluence::deeds::accepted_programs_are_orderly;
use bl_ctree_laws_confluence::independent::accepted_programs_have_at_most_one_trace;

/// Where ticks are bounded every list of steps of a tick goes on to a maximal one.
pub fn bounded_lists_go_on()
    ensures { BoundedExtend }
{
    points_are_steps();
    lists_of_steps();
}

/// So over each row there is a tick from each tree that a run reaches, and a meaning over all rows.
pub fn bounded_programs_have_meanings()
    ensures ticks { BoundedHaveTicks }
    ensures meanings { BoundedHaveMeanings }
{
    bounded_lists_go_on();
}

/// Where no tick is stuck the meaning allows traces alone.
pub fn unstuck_programs_show_traces()
    ensures { UnstuckShowTraces }
{}

/// Orders of the tick graphs of activities give each instance numbers that rise along control edges.
pub fn ordered_programs_are_numbered()
    ensures { OrderedAreNumbered }
{
    orders_give_ranks();
    accepted_programs_are_orderly();
}

/// A typed program that passes the rules has exactly one trace, where the tick graph of each activity has an order.
pub fn ordered_programs_have_one_trace()
    ensures { OrderedHaveOneTrace }
{
    bounded_programs_have_meanings();
    unstuck_programs_show_traces();
    ordered_programs_are_numbered();
    ordered_programs_are_never_stuck();
    accepted_is_bounded();
    accepted_programs_have_at_most_one_trace();
}
