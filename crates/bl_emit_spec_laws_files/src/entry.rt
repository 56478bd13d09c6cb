//! Runs of the entry by the numbers that are in C. One lemma (`specs/Entry.antt`): over all rows that fit there is a
//! run each tick of which is one pass by rules over the entry, where nodes and resting places have the numbers that
//! the machine lists; it shows the only trace that the semantics of the program allows (`EntryRuns`).

ghost use Rattle.bl_emit_spec_laws_files.specs.Entry.{EntryRuns};

use bl_ctree_laws_confluence::deeds::accepted_programs_are_orderly;
use bl_emit_spec_laws::cleared::clearing_is_inside;
use bl_machine_pass_laws::keys::nodes_have_keys;
use bl_machine_pass_laws_execution::machines::machines_give_contexts;
use bl_machine_pass_laws_execution::runs::runs_go_by_rules;

/// Over rows that fit there is a run by rules, with the numbers that are in C.
pub fn entry_runs()
    ensures { EntryRuns }
{
    accepted_programs_are_orderly();
    clearing_is_inside();
    nodes_have_keys();
    machines_give_contexts();
    runs_go_by_rules();
}
