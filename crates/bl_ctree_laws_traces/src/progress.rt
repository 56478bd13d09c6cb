//! Trees stand in tick graphs: the first part of progress. A place in the graph of a unit's body says which nodes may act
//! there now and in later ticks, and which lead out (`specs/Progress/Places.antt`); a tree is live at a place where all that is left
//! in it fits there (`specs/Progress/FitsGraph.antt`, `FitsGraph`). There is no code here.
//!
//! Laws (`specs/Progress/Laws.antt`): bodies begin live, and steps and waking keep that; what could act in a live tree is of the part
//! of the graph that acts in this tick; a tree in which something is left to do has something that could act. What could act
//! may, or it waits for a writer in another branch to which something else that could act leads
//! (`specs/Progress/Blocked.antt`). All trees that runs reach are live (`specs/Progress/Reached.antt`), in accepted programs without premises
//! (`specs/Progress/Accepted.antt`). What a deed reads is what its node reads (`specs/Progress/Reading.antt`).

ghost use Rattle.bl_ctree_laws_traces.specs.Progress.Accepted.{AcceptedTreesFitGraphs, ProgramsAreCallable};
ghost use Rattle.bl_ctree_laws_traces.specs.Progress.Blocked.{ActsOrWaits};
ghost use Rattle.bl_ctree_laws_traces.specs.Progress.Laws.{BodiesFitGraph, NodesAreInPart, StepsKeepFitsGraph, UnsettledCould, WakingKeepsFitsGraph};
ghost use Rattle.bl_ctree_laws_traces.specs.Progress.Reached.{ReachedCould, ReachedFitsGraph, ReachedInsideFitsGraph};
ghost use Rattle.bl_ctree_laws_traces.specs.Progress.Reading.{DeedsReadAtNodes};

use bl_ctree::laws::trees_stay_left;
use bl_ctree_laws::bridge::{
    answers_are_plain, statements_are_plain, steps_are_plain, surfaces_write_soon, waking_is_plain,
};
use bl_ctree_laws::shrinking::{acting_is_open, steps_shrink};
use bl_ctree_laws_confluence::deeds::accepted_programs_are_orderly;
use bl_graph::{instants_pass, writers_are_reached};

/// What could act in a tree is a node of the part of its body's graph that acts in this tick.
pub fn nodes_are_in_part()
    ensures { NodesAreInPart }
{}

/// A tree in which something is left to do has something that could act.
pub fn unsettled_could()
    ensures { UnsettledCould }
{}

/// A unit's body begins at its place in its graph.
pub fn bodies_fit_graph()
    ensures { BodiesFitGraph }
{}

/// Each step that could be taken keeps a tree at its place.
pub fn steps_keep_fits_graph()
    ensures { StepsKeepFitsGraph }
{
    instants_pass();
    steps_shrink();
}

/// Waking keeps a settled tree at its place, in the next tick.
pub fn waking_keeps_fits_graph()
    ensures { WakingKeepsFitsGraph }
{
    instants_pass();
}

/// What could act in a tree may act, or something else that could leads to a writer in another branch for which it waits.
pub fn acts_or_waits()
    ensures { ActsOrWaits }
{
    instants_pass();
    writers_are_reached();
    surfaces_write_soon();
}

/// The trees that runs reach stand at their places in the graph of the entry's body, and something could act in each of them
/// in which something is left to do.
pub fn reached_trees_fit_graphs()
    ensures trees { ReachedFitsGraph }
    ensures inside { ReachedInsideFitsGraph }
    ensures could { ReachedCould }
{
    trees_stay_left();
    statements_are_plain();
    answers_are_plain();
    waking_is_plain();
    steps_are_plain();
    instants_pass();
    acting_is_open();
    steps_shrink();
}

/// What the deed of a step reads is what the node that acts reads.
pub fn deeds_read_at_nodes()
    ensures { DeedsReadAtNodes }
{}

/// Each `run` in an instance of a typed program begins an instance of a unit.
pub fn programs_are_callable()
    ensures { ProgramsAreCallable }
{}

/// The trees that runs of an accepted program reach stand at their places, whatever their inputs.
pub fn accepted_trees_fit_graphs()
    ensures { AcceptedTreesFitGraphs }
{
    accepted_programs_are_orderly();
    programs_are_callable();
    reached_trees_fit_graphs();
}
