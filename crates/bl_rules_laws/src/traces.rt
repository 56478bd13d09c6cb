//! Trees in which no rule fails have exactly one trace (`specs/Traces/OneTrace.antt`). There is no code here. Laws, as
//! contracts of functions that do nothing: where neither of the rules Twice and Cycle fails the tick graph of each activity
//! has an order. So the peeled program has exactly one trace, and the source's program has the same: over
//! all rows, exactly one trace that the parallel meaning allows. No tick has more steps than the number of steps of the
//! peeled program, and none is stuck. It expands to 4,096 activity instances at most (`specs/Traces/Instances.antt`).

ghost use Rattle.bl_rules_laws.specs.Traces.Instances.{TreesHaveFewInstances};
ghost use Rattle.bl_rules_laws.specs.Traces.OneTrace.{TreesHaveOneTrace};
ghost use Rattle.bl_rules_laws.specs.Traces.Peeled.{AcceptedKeepPeeled, PeeledMeanTheSame};

use bl_cause_trees::laws::{units_are_peeled, units_are_peeled_in_one_way};
use bl_ctree_laws_confluence::deeds::accepted_programs_are_orderly;
use bl_ctree_laws_peeled::bodies::{peeled_programs_are_alike, peeled_programs_run_alike};
use bl_ctree_laws_peeled_bounds::bounds::peeled_programs_are_bounded;
use bl_ctree_laws_traces::ready::accepted_programs_are_ordered;
use bl_ctree_laws_traces::traces::{
    bounded_programs_have_meanings, ordered_programs_are_numbered, ordered_programs_have_one_trace,
};
use bl_limits_measures_laws::laws::{instances_are_counted, units_use_earlier_ones};
use bl_rules::laws::{peeled_units_pass_the_rules, peeled_units_stay_typed};
use bl_types_laws::kept::what_is_typed_keeps;
use bl_types_laws::order::statements_begin_in_order;

/// Where no rule fails for a tree, its program and its peeled program are typed and pass the rules.
pub fn accepted_trees_keep()
    ensures { AcceptedKeepPeeled }
{
    accepted_programs_are_ordered();
    statements_begin_in_order();
    units_are_peeled();
    peeled_units_pass_the_rules();
    peeled_units_stay_typed();
    what_is_typed_keeps();
}

/// Where no rule fails for a tree, its program means what its peeled program means.
pub fn peeled_programs_mean_the_same()
    ensures { PeeledMeanTheSame }
{
    accepted_trees_keep();
    accepted_programs_are_orderly();
    bounded_programs_have_meanings();
    ordered_programs_are_numbered();
    ordered_programs_have_one_trace();
    peeled_programs_are_bounded();
    peeled_programs_run_alike();
}

/// Where no rule fails for a tree its program has exactly one trace.
pub fn accepted_trees_have_one_trace()
    ensures { TreesHaveOneTrace }
{
    accepted_trees_keep();
    accepted_programs_are_orderly();
    bounded_programs_have_meanings();
    ordered_programs_are_numbered();
    ordered_programs_have_one_trace();
    peeled_programs_are_bounded();
    peeled_programs_run_alike();
}

/// Where no rule fails for a tree its program expands to few activity instances.
pub fn accepted_trees_have_few_instances()
    ensures { TreesHaveFewInstances }
{
    accepted_trees_keep();
    instances_are_counted();
    peeled_programs_are_alike();
    units_are_peeled_in_one_way();
    units_use_earlier_ones();
}
