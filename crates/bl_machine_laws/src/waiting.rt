//! What waits in a tree that stands in its body's tick graph. Lemmas only (`specs/Waiting/Laws.antt`). Nothing waits in
//! a tree between ticks. Something waits in a tree in which something is left to do and each called instance has been
//! passed. All that waits is a node of the part of the graph that acts in this tick. What waits after a turn waited
//! before it at another node, or control edges lead to it from the turn's node. In a woken tree only what rested waits,
//! with the same numbers (`specs/Waiting/Waking.antt`).

ghost use Rattle.bl_machine_laws.specs.Waiting.Laws.{SettledIsQuiet, TurnsLeadOn, UnsettledWaits, WaitsInPart};
ghost use Rattle.bl_machine_laws.specs.Waiting.Waking.{WakingKeepsNumbers, WokenRested};

use crate::numbers::{turns_are_walks, turns_wait};
use bl_ctree_laws::shrinking::steps_shrink;
use bl_graph::branches_part;

/// Nothing waits where nothing is left to do.
pub fn settled_is_quiet()
    ensures { SettledIsQuiet }
{}

/// Something waits where something is left to do.
pub fn unsettled_waits()
    ensures { UnsettledWaits }
{}

/// What waits may act in this tick.
pub fn waits_in_part()
    ensures { WaitsInPart }
{}

/// A turn makes nothing wait but what its node leads to, and leaves its node to wait no more.
pub fn turns_lead_on()
    ensures { TurnsLeadOn }
{
    branches_part();
    steps_shrink();
    turns_are_walks();
    turns_wait();
}

/// What waits where a tick goes on from a tree that rested is what rested there.
pub fn woken_rested()
    ensures { WokenRested }
{}

/// Waking a tree leaves its numbers.
pub fn waking_keeps_numbers()
    ensures { WakingKeepsNumbers }
{}
