//! The blocks of an activity's body ask for and change only registers that its C function has. Lemmas only
//! (`specs/Own.antt`). The number of each resting place is a value of one of the counters (`PlacesCount`), and C copies
//! only such counters (`CopiesAreCounters`, `CopiesAreRead`). All that the rule of a block's last node changes is a
//! register (`ChangesAreOwn`), and so is all that the rule of its first node asks; the numbers at which the body of a
//! `when` rests are consecutive (`AskedAreOwn`). So is the flag of the node at which the body begins (`EntriesAreOwn`).
//! The numbers of nodes and of registers are small where there are few enough nodes and counters (`NodesAreFew`,
//! `RegistersAreFew`).

ghost use Rattle.bl_emit_spec_laws.specs.Own.{AskedAreOwn, ChangesAreOwn, CopiesAreCounters, CopiesAreRead, EntriesAreOwn, NodesAreFew, PlacesCount, RegistersAreFew};

use bl_graph::graphs_stay_within;
use bl_machine_pass_laws::flags::{flags_are_asked, flags_are_reached, flags_come_from_before};
use bl_machine_pass_laws::keys::nodes_have_keys;
use bl_machine_pass_laws::numbers::trees_stay_placed;
use bl_machine_pass_laws::spots::spots_differ;
use bl_machine_transitions_laws::rules_are_listed;

/// The number of each resting place is a value of one of the counters.
pub fn places_count()
    ensures { PlacesCount }
{
    spots_differ();
}

/// Counters that are copied are counters.
pub fn copies_are_counters()
    ensures { CopiesAreCounters }
{
    spots_differ();
}

/// The registers have copies of the counters that C copies.
pub fn copies_are_read()
    ensures { CopiesAreRead }
{}

/// All that the rule of a block's last node changes is a register.
pub fn changes_are_own()
    ensures { ChangesAreOwn }
{
    spots_differ();
    flags_are_asked();
    flags_are_reached();
    flags_come_from_before();
    graphs_stay_within();
    nodes_have_keys();
    trees_stay_placed();
    rules_are_listed();
}

/// All that the rule of a block's first node asks is told by registers.
pub fn asked_are_own()
    ensures { AskedAreOwn }
{
    spots_differ();
    flags_are_asked();
    flags_are_reached();
    flags_come_from_before();
    graphs_stay_within();
    nodes_have_keys();
    trees_stay_placed();
    rules_are_listed();
}

/// The flag of the node at which a body begins is a register.
pub fn entries_are_own()
    ensures { EntriesAreOwn }
{
    spots_differ();
    flags_are_asked();
    flags_are_reached();
    flags_come_from_before();
    graphs_stay_within();
    nodes_have_keys();
    trees_stay_placed();
    rules_are_listed();
}

/// The number of each node is small.
pub fn nodes_are_few()
    ensures { NodesAreFew }
{
    spots_differ();
    trees_stay_placed();
}

/// The numbers of registers are small.
pub fn registers_are_few()
    ensures { RegistersAreFew }
{
    spots_differ();
    trees_stay_placed();
}
