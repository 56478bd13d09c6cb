//! The values of variables before the tick, in passes by rules. Lemmas only (`specs/Fresh/Laws.antt`): what a deed
//! leaves of frames and of earlier values (`DeedsAreSeen`), and what is seen of an instance's own variables
//! (`OwnIsSeen`). Turns leave trees that ask for earlier values only where their copies have them (`TreesAsk`), since a
//! body made of a source text asks only behind declarations (`BodiesAsk`). As a tick begins, earlier and current values
//! are equal (`StoresAreFresh`).

ghost use Rattle.bl_machine_pass_laws_execution.specs.Fresh.Laws.{BodiesAsk, DeedsAreSeen, OwnIsSeen, StoresAreFresh, TreesAsk};

use bl_ctree_laws_confluence::deeds::instances_have_callers;

/// What a deed leaves.
pub fn deeds_are_seen()
    ensures { DeedsAreSeen }
{
    instances_have_callers();
}

/// What is seen of an instance's own variables.
pub fn own_is_seen()
    ensures { OwnIsSeen }
{
    instances_have_callers();
}

/// What turns leave of what a tree asks for.
pub fn trees_ask()
    ensures { TreesAsk }
{}

/// Bodies ask behind declarations alone.
pub fn bodies_ask()
    ensures { BodiesAsk }
{
    instances_have_callers();
}

/// As a tick begins each variable was what it is.
pub fn stores_are_fresh()
    ensures { StoresAreFresh }
{}
