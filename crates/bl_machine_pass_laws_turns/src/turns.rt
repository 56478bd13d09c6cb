//! A pass over an activity by registers, from its start through each of its turns (`specs/Turns.antt`). Lemmas only.
//! The invariant holds as a pass begins (`PassesBegin`), and each turn keeps it, with the changes of its node's rule
//! (`TurnsKeepInvariant`). Each rule is due iff something waits at its node (`DueWaits`). So the counters between ticks
//! are a function of the tree. In a pass a counter may still hold the number of an `await` or a `run` that has gone on.

ghost use Rattle.bl_machine_pass_laws_turns.specs.Turns.{DueWaits, NumbersPass, PassesBegin, TreesFitBodies, TurnsKeepInvariant};

use crate::joins::{joins_wait, marks_begin, stays_stemmed, turns_keep_marks};
use crate::waiting::{
    bodies_begin, trees_stay_dozing, turns_keep_flags, turns_keep_resumes, turns_leave_more,
};
use bl_machine_laws::waiting::waking_keeps_numbers;
use bl_machine_pass_laws::numbers::{counters_linger, trees_stay_placed, turns_change_numbers};
use bl_machine_pass_laws::rooted::{only_resumes_begin, resumes_begin, stays_rooted};

/// Trees stand in their bodies.
pub fn trees_stand()
    ensures { TreesFitBodies }
{
    trees_stay_placed();
    trees_stay_dozing();
    stays_rooted();
    stays_stemmed();
}

/// As a pass begins the registers tell how the tree stands.
pub fn passes_begin()
    ensures { PassesBegin }
{
    counters_linger();
    trees_stay_placed();
    bodies_begin();
    marks_begin();
    resumes_begin();
    only_resumes_begin();
    waking_keeps_numbers();
}

/// Each turn leaves them so.
pub fn turns_keep()
    ensures { TurnsKeepInvariant }
{
    trees_stay_placed();
    turns_change_numbers();
    turns_leave_more();
    turns_keep_flags();
    turns_keep_resumes();
    turns_keep_marks();
}

/// What waits first is the next to have its turn.
pub fn numbers_pass()
    ensures { NumbersPass }
{}

/// What is due is what waits.
pub fn due_waits()
    ensures { DueWaits }
{
    trees_stay_placed();
    joins_wait();
}
