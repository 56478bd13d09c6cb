//! Ticks of an instance of an accepted program that is made of a source text, made by rules. One lemma
//! (`specs/Ticks.antt`). Each pass by rules, the first and later ones from the frames of the tick before, leaves the
//! store that turns lead to. Its frames match the tree that is left. It traps where turns lead to a trap. An instance
//! goes on iff its first counter isn't 0 (`TicksExecute`).

ghost use Rattle.bl_machine_pass_laws_execution.specs.Ticks.{TicksExecute};

use crate::frames::frames_nest;
use crate::fresh::{bodies_ask, own_is_seen, trees_ask};
use crate::passes::passes_execute;
use crate::performs::all_turns_perform;
use bl_ctree_laws_confluence::apart::accepted_programs_run_apart;
use bl_ctree_laws_traces::progress::{
    bodies_fit_graph, programs_are_callable, waking_keeps_fits_graph,
};
use bl_machine_pass_laws::numbers::first_counter_tells;
use bl_machine_pass_laws_turns::turns::{passes_begin, trees_stand};

/// Ticks are made by rules.
pub fn ticks_execute()
    ensures { TicksExecute }
{
    accepted_programs_run_apart();
    bodies_fit_graph();
    programs_are_callable();
    waking_keeps_fits_graph();
    passes_execute();
    frames_nest();
    all_turns_perform();
    passes_begin();
    trees_stand();
    own_is_seen();
    trees_ask();
    bodies_ask();
    first_counter_tells();
}
