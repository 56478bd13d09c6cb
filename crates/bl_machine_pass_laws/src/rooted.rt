//! What rests in an activity stands under the `when`s in which it is written (`specs/Turns/Rooted.antt`,
//! `StaysRooted`): so a body begins, and waking and turns keep that. Where counters hold the numbers of a tree that
//! rested, what is due in the next tick is what waits in the woken tree (`specs/Rooted.antt`, `ResumesBegin`). Lemmas
//! only.

ghost use Rattle.bl_machine_pass_laws.specs.Turns.Rooted.{StaysRooted};
ghost use Rattle.bl_machine_pass_laws.specs.Rooted.{OnlyResumesBegin, ResumesBegin};

use crate::spots::spots_differ;
use bl_graph_nodes::nodes_differ;
use bl_machine_laws::numbers::sleepers_wait;
use bl_machine_laws::waiting::woken_rested;

/// Trees of an activity stand under the `when`s in which what is left of them is written.
pub fn stays_rooted()
    ensures { StaysRooted }
{
    spots_differ();
}

/// As a pass goes on over a tree that rested, a resume node is due exactly where something waits for it.
pub fn resumes_begin()
    ensures { ResumesBegin }
{
    woken_rested();
    sleepers_wait();
    spots_differ();
    nodes_differ();
}

/// And nothing waits then at other nodes.
pub fn only_resumes_begin()
    ensures { OnlyResumesBegin }
{
    woken_rested();
    sleepers_wait();
    spots_differ();
    nodes_differ();
}
